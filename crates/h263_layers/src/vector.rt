// MVD: a macroblock's vector from what predicts it. A component is kept as 32 more than it is, so that nothing is negative.
ghost use Rattle.std.specs.Prelude.{◌≡◌, ◌≤◌};
ghost use Rattle.bits.specs.Bits.{bits_left};
ghost use Rattle.h263_description.specs.Landing.{component_of};
ghost use Rattle.h263_layers.specs.Answer.{vector_kept, as_component, as_vector};
ghost use Rattle.h263_layers.specs.Ready.{Reading, VectorReady};
ghost use Rattle.h263_layers.specs.Vector.{component_read, vector_read};

use bits::{Place, Stopped};
use fields::{CountedRead, once};
use h263_description::predicted::Kept;
use h263_words::WordTables;
use refusals::{Reason, Refusal};
use size::Size;

// One component: of a word's two differences the one that lands in -32..31. Both are the same modulo 64.
fn component(
    tables: &WordTables,
    bytes: &[u8],
    count: usize,
    at: Place,
    predicted: usize,
) -> CountedRead<u32>
    requires { (Reading tables.now bytes.now count at) × (predicted ≤ 63) }
    ensures { as_component bytes.now count result ≡ component_read (component_of predicted) (bits_left bytes.now count at.bit) at }
{
    let read = once(at, h263_words::mvd(tables, bytes, count, at.bit));
    let CountedRead::Got(difference, next) = read else {
        return CountedRead::Refused(read.stopped());
    };
    CountedRead::Got(((predicted as u32) + difference + 32) % 64, next)
}

// Both components; whether the vector points out of the picture is judged once both are read.
pub fn vector(
    tables: &WordTables,
    bytes: &[u8],
    count: usize,
    at: Place,
    size: Size,
    number: usize,
    address: usize,
    predicted: Kept,
) -> CountedRead<(u8, u8)>
    requires { (Reading tables.now bytes.now count at) × (VectorReady size number address predicted) }
    ensures { as_vector bytes.now count result ≡ vector_read size number address (vector_kept predicted) (bits_left bytes.now count at.bit) at }
{
    let first = component(tables, bytes, count, at, predicted.horizontal);
    let CountedRead::Got(across, after) = first else {
        return CountedRead::Refused(first.stopped());
    };
    let second = component(tables, bytes, count, after, predicted.vertical);
    let CountedRead::Got(down, next) = second else {
        return CountedRead::Refused(second.stopped());
    };
    let x = (address - 1) * 32 + (across as usize);
    let y = number * 32 + (down as usize);
    let out = Stopped {
        refusal: Refusal {
            reason: Reason::VectorOut,
            place: at.bit,
        },
        reads: next.reads,
    };
    if x < 32 {
        return CountedRead::Refused(out);
    }
    if size::width(size) * 2 < x {
        return CountedRead::Refused(out);
    }
    if y < 32 {
        return CountedRead::Refused(out);
    }
    if size::height(size) * 2 < y {
        return CountedRead::Refused(out);
    }
    CountedRead::Got((across as u8, down as u8), next)
}
