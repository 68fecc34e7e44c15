// The blocks of a macroblock: their coefficients, laid out in the levels as they are read.
ghost use Rattle.std.specs.Prelude.{◌≡◌, ◌+◌, ◌*◌, ◌-◌, ◌≤◌, length};
ghost use Rattle.laws.specs.Choice.{pick};
ghost use Rattle.bits.specs.Bits.{bits_left, bits_of};
ghost use Rattle.bits.specs.Read.{loop};
ghost use Rattle.h261_words.specs.Tables.{table_of};
ghost use Rattle.layout.specs.Flat.{put_block, put_blocks};
ghost use Rattle.fields.specs.Answer.{map_read, leaving};
ghost use Rattle.h261_layers.specs.Answer.{block_end};
ghost use Rattle.h261_layers.specs.Ready.{Reading, Span};
ghost use Rattle.h261_layers.specs.Grammar.{coefficients as coefficients_read, intra_block, inter_block, blocks_read};

use bits::{Place, Stopped};
use fields::{CountedRead, once};
use h261_words::{CoefficientRead, WordTables};
use refusals::{Reason, Refusal};

// Where a block ended, after so many reads: at EOB, or by the refusal.
fn block_end(reads: usize, read: CoefficientRead) -> CountedRead<()>
    ensures { result ≡ block_end reads read }
{
    match read {
        CoefficientRead::Coefficient(_, _, bit) => CountedRead::Got((), Place { bit, reads }),
        CoefficientRead::EndOfBlock(bit) => CountedRead::Got((), Place { bit, reads }),
        CoefficientRead::Refused(refusal) => CountedRead::Refused(Stopped { refusal, reads }),
    }
}

// The coefficients of a block to EOB: the first stands at `from` in the levels if its run is 0, and none at `end` or after.
fn coefficients(
    tables: &WordTables,
    bytes: &[u8],
    count: usize,
    at: Place,
    opening: bool,
    levels: &mut [u8],
    from: usize,
    end: usize,
) -> CountedRead<()>
    requires { (Reading tables.now bytes.now count at) × (Span from end levels.old) }
    ensures { leaving bytes.now count result levels.new ≡ map_read (put_block levels.old from) (loop (λ turns. coefficients_read turns (end - from) (table_of opening)) (bits_left bytes.now count at.bit) at) }
{
    let mut place = at;
    let mut first = opening;
    let mut k = from;
    loop {
        let read = h261_words::coefficient(tables, bytes, count, place.bit, first);
        let reads = place.reads + 1;
        let CoefficientRead::Coefficient(run, code, next) = read else {
            return block_end(reads, read);
        };
        let to = k + (run as usize);
        if end <= to {
            return CountedRead::Refused(Stopped {
                refusal: Refusal {
                    reason: Reason::CoefficientPast,
                    place: place.bit,
                },
                reads,
            });
        }
        levels[to] = code;
        k = to + 1;
        place = Place { bit: next, reads };
        first = false;
    }
}

// An INTRA block: an 8-bit DC code, then its coefficients.
fn intra_block(
    tables: &WordTables,
    bytes: &[u8],
    count: usize,
    at: Place,
    levels: &mut [u8],
    base: usize,
) -> CountedRead<()>
    requires { (Reading tables.now bytes.now count at) × (base + 64 ≤ length levels.old) }
    ensures { leaving bytes.now count result levels.new ≡ map_read (put_block levels.old base) (intra_block (bits_left bytes.now count at.bit) at) }
{
    let read = once(at, bits::field(bytes, count, at.bit, 8));
    let CountedRead::Got(code, next) = read else {
        return CountedRead::Refused(read.stopped());
    };
    if code % 128 == 0 {
        return CountedRead::Refused(Stopped {
            refusal: Refusal {
                reason: Reason::Forbidden,
                place: at.bit,
            },
            reads: next.reads,
        });
    }
    levels[base] = code as u8;
    coefficients(
        tables,
        bytes,
        count,
        next,
        false,
        levels,
        base + 1,
        base + 64,
    )
}

fn one_block(
    tables: &WordTables,
    bytes: &[u8],
    count: usize,
    at: Place,
    intra: bool,
    levels: &mut [u8],
    base: usize,
) -> CountedRead<()>
    requires { (Reading tables.now bytes.now count at) × (base + 64 ≤ length levels.old) }
    ensures { leaving bytes.now count result levels.new ≡ map_read (put_block levels.old base) (pick intra intra_block inter_block (bits_left bytes.now count at.bit) at) }
{
    if intra {
        return intra_block(tables, bytes, count, at, levels, base);
    }
    coefficients(tables, bytes, count, at, true, levels, base, base + 64)
}

// The blocks of a macroblock that the pattern names, most significant bit first.
pub fn blocks(
    tables: &WordTables,
    bytes: &[u8],
    count: usize,
    at: Place,
    intra: bool,
    pattern: u32,
    levels: &mut [u8],
    base: usize,
) -> CountedRead<()>
    requires { (Reading tables.now bytes.now count at) × (base + 384 ≤ length levels.old) }
    ensures { leaving bytes.now count result levels.new ≡ map_read (put_blocks levels.old base) (blocks_read intra (bits_of 6 pattern) (bits_left bytes.now count at.bit) at) }
{
    let mut place = at;
    for b in 0..6 {
        let after = 5 - b;
        if (pattern >> after) % 2 == 1 {
            let read = one_block(tables, bytes, count, place, intra, levels, base + b * 64);
            let CountedRead::Got((), next) = read else {
                return CountedRead::Refused(read.stopped());
            };
            place = next;
        }
    }
    CountedRead::Got((), place)
}
