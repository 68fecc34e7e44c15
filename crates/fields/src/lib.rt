// Fields under a rule: a value that is expected, a quantiser, spares; and the answer of a layer that is made of them. From here on a place counts:
// a layer is given the place and the number of reads before it, and answers both, and a refusal goes up with the number of reads up to it.
#![tactic(auto)]

ghost use Rattle.std.specs.Prelude.{◌≡◌, ◌*◌, ◌≤◌, ◌<◌, ltb};
ghost use Rattle.laws.specs.Choice.{either};
ghost use Rattle.bits.specs.Bits.{bits_left};
ghost use Rattle.bits.specs.Answer.{Placed};
ghost use Rattle.bit_reader.specs.Reader.{reader_bits};
ghost use Rattle.fields.specs.Answer.{read_once, as_number, leaving, field_stopped, stopped_of, place_of, plain_spares, refused_picture};
ghost use Rattle.fields.specs.Rules.{expect as expected, quantiser as quantiser_read, spares as spares_read};

use bit_reader::BitReader;
use bits::{FieldRead, Place, Stopped, field};
use refusals::{Reason, Refusal};

// "each read gives either a meaning with the next place or a refusal", both with the number of reads up to there: a number, a pair of them, where a layer
// ended.
#[derive(Clone, Copy, PartialEq, Eq, Debug)]
pub enum CountedRead<T> {
    Got(T, Place),
    Refused(Stopped),
}

impl<T> CountedRead<T> {
    // The refusal of a read that was refused.
    pub fn stopped(self) -> Stopped
    where
        T: Copy,
        ensures { result ≡ stopped_of self }
    {
        match self {
            CountedRead::Got(_, at) => Stopped {
                refusal: Refusal {
                    reason: Reason::BitsEnd,
                    place: at.bit,
                },
                reads: at.reads,
            },
            CountedRead::Refused(stopped) => stopped,
        }
    }
}

// The refusal of a field that was refused, after so many reads.
pub fn field_stopped(reads: usize, read: FieldRead<u32>) -> Stopped
    ensures { result ≡ field_stopped reads read }
{
    let refusal = read.refusal();
    Stopped { refusal, reads }
}

// What reading a picture comes to: the verdict, and how many fields and codewords were read, up to a refusal if it was refused.
#[derive(Clone, Copy, PartialEq, Eq, Debug)]
pub struct PictureRead {
    pub verdict: Result<(), Refusal>,
    pub reads: usize,
}

// A picture that was refused.
pub fn refused_picture(stopped: Stopped) -> PictureRead
    ensures { result ≡ refused_picture stopped }
{
    let why = stopped.refusal;
    PictureRead {
        verdict: Err(why),
        reads: stopped.reads,
    }
}

// Whether N is above 8 times the slice, or above the limit.
pub fn count_above(length: usize, count: usize, limit: usize) -> bool
    ensures { result ≡ either (ltb (8 * length) count) (ltb limit count) }
{
    let started = count / 8 + (count % 8 + 7) / 8;
    if length < started {
        return true;
    }
    limit < count
}

// A field or a codeword that was read at a place, counted: one read, whether it was refused or not.
pub fn once(at: Place, read: FieldRead<u32>) -> CountedRead<u32>
    requires { at.reads < 4294967296 }
    ensures { result ≡ read_once at read }
{
    let reads = at.reads + 1;
    match read {
        FieldRead::Got(value, bit) => CountedRead::Got(value, Place { bit, reads }),
        FieldRead::Refused(refusal) => CountedRead::Refused(Stopped { refusal, reads }),
    }
}

// A field that must hold this value, else it is refused for this reason.
pub fn expect(
    bytes: &[u8],
    count: usize,
    at: Place,
    width: usize,
    value: u32,
    reason: Reason,
) -> CountedRead<()>
    requires { (Placed bytes.now count at) × (width ≤ 24) }
    ensures { leaving bytes.now count result value ≡ expected width value reason (bits_left bytes.now count at.bit) at }
{
    let read = once(at, field(bytes, count, at.bit, width));
    let CountedRead::Got(found, next) = read else {
        return CountedRead::Refused(read.stopped());
    };
    if found == value {
        CountedRead::Got((), next)
    } else {
        CountedRead::Refused(Stopped {
            refusal: Refusal {
                reason,
                place: at.bit,
            },
            reads: next.reads,
        })
    }
}

// A quantiser, which is not 0.
pub fn quantiser(bytes: &[u8], count: usize, at: Place) -> CountedRead<u32>
    requires { Placed bytes.now count at }
    ensures { as_number bytes.now count result ≡ quantiser_read (bits_left bytes.now count at.bit) at }
{
    let read = once(at, field(bytes, count, at.bit, 5));
    let CountedRead::Got(found, next) = read else {
        return CountedRead::Refused(read.stopped());
    };
    if found == 0 {
        return CountedRead::Refused(Stopped {
            refusal: Refusal {
                reason: Reason::QuantiserZero,
                place: at.bit,
            },
            reads: next.reads,
        });
    }
    CountedRead::Got(found, next)
}

// PEI or GEI, then eight dropped bits and another while it is 1.
pub fn spares(bytes: &[u8], count: usize, from: Place) -> CountedRead<()>
    requires { Placed bytes.now count from }
    ensures { leaving bytes.now count result 0 ≡ spares_read (bits_left bytes.now count from.bit) from }
{
    let mut at = from;
    loop {
        let more = once(at, field(bytes, count, at.bit, 1));
        let CountedRead::Got(bit, after) = more else {
            return CountedRead::Refused(more.stopped());
        };
        if bit == 0 {
            return CountedRead::Got((), after);
        }
        let spare = once(after, field(bytes, count, after.bit, 8));
        let CountedRead::Got(_, next) = spare else {
            return CountedRead::Refused(spare.stopped());
        };
        at = next;
    }
}

// The same from a bit on, after so many reads.
fn spares_from(bytes: &[u8], count: usize, bit: usize, reads: usize) -> CountedRead<()>
    requires { Placed bytes.now count (place_of bit reads) }
    ensures { leaving bytes.now count result 0 ≡ spares_read (bits_left bytes.now count bit) (place_of bit reads) }
{
    spares(bytes, count, Place { bit, reads })
}

// The same at a bit reader's place.
pub fn drop_spares<'a>(reader: BitReader<'a>, reads: usize) -> CountedRead<()>
    requires { Placed reader.bytes.now reader.count (place_of reader.place reads) }
    ensures { leaving reader.entry.bytes.now reader.entry.count result 0 ≡ spares_read (reader_bits reader.entry) (place_of reader.entry.place reads) }
{
    spares_from(reader.bytes, reader.count, reader.place, reads)
}

// Spares without their count, as a bit reader goes on after them.
pub fn plain_spares(read: CountedRead<()>) -> FieldRead<u32>
    ensures { result ≡ plain_spares read }
{
    match read {
        CountedRead::Got((), at) => FieldRead::Got(0, at.bit),
        CountedRead::Refused(stopped) => {
            let refusal = stopped.refusal;
            FieldRead::Refused(refusal)
        }
    }
}
