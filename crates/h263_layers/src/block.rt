// The blocks of a macroblock: their coefficients, laid out in the levels as they are read.
ghost use Rattle.std.specs.Prelude.{◌≡◌, ◌+◌, ◌*◌, ◌-◌, ◌≤◌, length};
ghost use Rattle.laws.specs.Choice.{pick};
ghost use Rattle.bits.specs.Bits.{bits_left, bit_of, bits_of};
ghost use Rattle.bits.specs.Read.{loop};
ghost use Rattle.layout.specs.Flat.{put_block, put_blocks};
ghost use Rattle.fields.specs.Answer.{map_read, leaving};
ghost use Rattle.h263_layers.specs.Answer.{event_stopped};
ghost use Rattle.h263_layers.specs.Ready.{Reading, Span};
ghost use Rattle.h263_layers.specs.Grammar.{events as events_read, intra_block, inter_block, blocks_read};

use bits::{Place, Stopped};
use fields::{CountedRead, once};
use h263_words::{EventRead, WordTables};
use refusals::{Reason, Refusal};

// The refusal of an event that was refused, after so many reads.
fn event_stopped(reads: usize, read: EventRead) -> Stopped
    ensures { result ≡ event_stopped reads read }
{
    match read {
        EventRead::Event(_, _, _, place) => Stopped {
            refusal: Refusal {
                reason: Reason::BitsEnd,
                place,
            },
            reads,
        },
        EventRead::Refused(refusal) => Stopped { refusal, reads },
    }
}

// The events of a block up to the last: the first one's coefficient stands at `from` in the levels if its run is 0, and none at `end` or after.
fn events(
    tables: &WordTables,
    bytes: &[u8],
    count: usize,
    at: Place,
    levels: &mut [u8],
    from: usize,
    end: usize,
) -> CountedRead<()>
    requires { (Reading tables.now bytes.now count at) × (Span from end levels.old) }
    ensures { leaving bytes.now count result levels.new ≡ map_read (put_block levels.old from) (loop (λ turns. events_read turns (end - from)) (bits_left bytes.now count at.bit) at) }
{
    let mut place = at;
    let mut k = from;
    // No plainer as a `for`: a turn goes on by a run and one, up to an event that says it is the last.
    loop {
        let read = h263_words::event(tables, bytes, count, place.bit);
        let reads = place.reads + 1;
        let EventRead::Event(last, run, code, next) = read else {
            return CountedRead::Refused(event_stopped(reads, read));
        };
        let to = k + (run as usize);
        if end <= to {
            return CountedRead::Refused(Stopped {
                refusal: Refusal {
                    reason: Reason::CoefficientPast,
                    place: place.bit,
                },
                reads,
            });
        }
        levels[to] = code;
        place = Place { bit: next, reads };
        if last == 1 {
            return CountedRead::Got((), place);
        }
        k = to + 1;
    }
}

// An INTRA block: an 8-bit DC code, then its other coefficients, where the pattern's bit says so.
fn intra_block(
    tables: &WordTables,
    bytes: &[u8],
    count: usize,
    at: Place,
    coded: u32,
    levels: &mut [u8],
    base: usize,
) -> CountedRead<()>
    requires { (Reading tables.now bytes.now count at) × (base + 64 ≤ length levels.old) }
    ensures { leaving bytes.now count result levels.new ≡ map_read (put_block levels.old base) (intra_block (bit_of coded) (bits_left bytes.now count at.bit) at) }
{
    let read = once(at, bits::field(bytes, count, at.bit, 8));
    let CountedRead::Got(code, next) = read else {
        return CountedRead::Refused(read.stopped());
    };
    if code % 128 == 0 {
        return CountedRead::Refused(Stopped {
            refusal: Refusal {
                reason: Reason::Forbidden,
                place: at.bit,
            },
            reads: next.reads,
        });
    }
    levels[base] = code as u8;
    if coded == 0 {
        return CountedRead::Got((), next);
    }
    events(tables, bytes, count, next, levels, base + 1, base + 64)
}

// Another's, from the first coefficient on, where the pattern's bit says so.
fn inter_block(
    tables: &WordTables,
    bytes: &[u8],
    count: usize,
    at: Place,
    coded: u32,
    levels: &mut [u8],
    base: usize,
) -> CountedRead<()>
    requires { (Reading tables.now bytes.now count at) × (base + 64 ≤ length levels.old) }
    ensures { leaving bytes.now count result levels.new ≡ map_read (put_block levels.old base) (inter_block (bit_of coded) (bits_left bytes.now count at.bit) at) }
{
    if coded == 0 {
        return CountedRead::Got((), at);
    }
    events(tables, bytes, count, at, levels, base, base + 64)
}

fn one_block(
    tables: &WordTables,
    bytes: &[u8],
    count: usize,
    at: Place,
    intra: bool,
    coded: u32,
    levels: &mut [u8],
    base: usize,
) -> CountedRead<()>
    requires { (Reading tables.now bytes.now count at) × (base + 64 ≤ length levels.old) }
    ensures { leaving bytes.now count result levels.new ≡ map_read (put_block levels.old base) (pick intra (intra_block (bit_of coded)) (inter_block (bit_of coded)) (bits_left bytes.now count at.bit) at) }
{
    if intra {
        return intra_block(tables, bytes, count, at, coded, levels, base);
    }
    inter_block(tables, bytes, count, at, coded, levels, base)
}

// The six blocks of a macroblock, by a pattern, most significant bit first.
pub fn blocks(
    tables: &WordTables,
    bytes: &[u8],
    count: usize,
    at: Place,
    intra: bool,
    pattern: u32,
    levels: &mut [u8],
    base: usize,
) -> CountedRead<()>
    requires { (Reading tables.now bytes.now count at) × (base + 384 ≤ length levels.old) }
    ensures { leaving bytes.now count result levels.new ≡ map_read (put_blocks levels.old base) (blocks_read intra (bits_of 6 pattern) (bits_left bytes.now count at.bit) at) }
{
    let mut place = at;
    for b in 0..6 {
        let after = 5 - b;
        let coded = (pattern >> after) % 2;
        let read = one_block(
            tables,
            bytes,
            count,
            place,
            intra,
            coded,
            levels,
            base + b * 64,
        );
        let CountedRead::Got((), next) = read else {
            return CountedRead::Refused(read.stopped());
        };
        place = next;
    }
    CountedRead::Got((), place)
}
