// MVD: a macroblock's vector from the preceding one. A component is kept as 16 more than it is, so that nothing is negative.
ghost use Rattle.std.specs.Prelude.{◌≡◌};
ghost use Rattle.bits.specs.Bits.{bits_left};
ghost use Rattle.h261_groups.specs.Format.{Addressed, column as column_of, row as row_of};
ghost use Rattle.h261_layers.specs.Answer.{Kept, component_of, vector_of, as_component, as_vector};
ghost use Rattle.h261_layers.specs.Ready.{Reading, VectorReady};
ghost use Rattle.h261_layers.specs.Vector.{component_read, vector_read};

use bits::{Place, Stopped};
use fields::{CountedRead, once};
use h261_groups::Format;
use h261_words::WordTables;
use refusals::{Reason, Refusal};

// One component: of a pair's two differences the one that lands in -15..15. Both are the same modulo 32.
fn component(
    tables: &WordTables,
    bytes: &[u8],
    count: usize,
    at: Place,
    preceding: u8,
) -> CountedRead<u32>
    requires { (Reading tables.now bytes.now count at) × (Kept preceding) }
    ensures { as_component bytes.now count result ≡ component_read (component_of preceding) (bits_left bytes.now count at.bit) at }
{
    let read = once(at, h261_words::mvd(tables, bytes, count, at.bit));
    let CountedRead::Got(difference, next) = read else {
        return CountedRead::Refused(read.stopped());
    };
    let landed = ((preceding as u32) + difference + 16) % 32;
    if landed == 0 {
        return CountedRead::Refused(Stopped {
            refusal: Refusal {
                reason: Reason::VectorOut,
                place: at.bit,
            },
            reads: next.reads,
        });
    }
    CountedRead::Got(landed, next)
}

// The first column and row of the macroblock at an address of a group.
fn column(number: usize, address: usize) -> usize
    requires { Addressed number address }
    ensures { result ≡ column_of number address }
{
    (number - 1) % 2 * 176 + (address - 1) % 11 * 16
}

fn row(number: usize, address: usize) -> usize
    requires { Addressed number address }
    ensures { result ≡ row_of number address }
{
    (number - 1) / 2 * 48 + (address - 1) / 11 * 16
}

// Both components; whether the vector points out of the picture is judged once both are read.
pub fn vector(
    tables: &WordTables,
    bytes: &[u8],
    count: usize,
    at: Place,
    format: Format,
    number: usize,
    address: usize,
    horizontal: u8,
    vertical: u8,
) -> CountedRead<(u8, u8)>
    requires { (Reading tables.now bytes.now count at) × (VectorReady number address horizontal vertical) }
    ensures { as_vector bytes.now count result ≡ vector_read format number address (vector_of horizontal vertical) (bits_left bytes.now count at.bit) at }
{
    let first = component(tables, bytes, count, at, horizontal);
    let CountedRead::Got(across, after) = first else {
        return CountedRead::Refused(first.stopped());
    };
    let second = component(tables, bytes, count, after, vertical);
    let CountedRead::Got(down, next) = second else {
        return CountedRead::Refused(second.stopped());
    };
    let x = column(number, address) + (across as usize);
    let y = row(number, address) + (down as usize);
    let out = Stopped {
        refusal: Refusal {
            reason: Reason::VectorOut,
            place: at.bit,
        },
        reads: next.reads,
    };
    if x < 16 {
        return CountedRead::Refused(out);
    }
    if h261_groups::width(format) < x {
        return CountedRead::Refused(out);
    }
    if y < 16 {
        return CountedRead::Refused(out);
    }
    if h261_groups::height(format) < y {
        return CountedRead::Refused(out);
    }
    CountedRead::Got((across as u8, down as u8), next)
}
