// "A bit reader carries the lent bytes together with its place." Its methods are few and thin: `field` calls the function over the slice and the numbers, and
// promises the same by the same definition; `after` goes on with the same bytes.
#![tactic(auto)]

ghost use Rattle.std.specs.Prelude.{◌≡◌, ◌≤◌};
ghost use Rattle.bits.specs.Read.{field as field_read};
ghost use Rattle.bits.specs.Answer.{as_field};
ghost use Rattle.bit_reader.specs.Reader.{reader_over, reader_bits, Inside, place_after, reader_past};

use bits::FieldRead;

// The first `count` bits of `bytes`, at a place.
#[derive(Clone, Copy)]
pub struct BitReader<'a> {
    pub bytes: &'a [u8],
    pub count: usize,
    pub place: usize,
}

impl<'a> BitReader<'a> {
    pub fn new(bytes: &'a [u8], count: usize, place: usize) -> Self
        ensures { result ≡ reader_over bytes.entry count place }
    {
        BitReader {
            bytes,
            count,
            place,
        }
    }

    // A field of `width` bits at the reader's place.
    pub fn field(self, width: usize) -> FieldRead<u32>
        requires { (Inside self) × (width ≤ 24) }
        ensures { as_field self.entry.bytes.now self.entry.count result ≡ field_read width (reader_bits self.entry) self.entry.place }
    {
        bits::field(self.bytes, self.count, self.place, width)
    }

    // The reader after a field that it read. Where that was refused it stands at the end, where it reads nothing more.
    pub fn after(self, read: FieldRead<u32>) -> Self
        ensures { result ≡ reader_past self.entry read }
    {
        BitReader {
            bytes: self.bytes,
            count: self.count,
            place: next_place(self.count, read),
        }
    }
}

// The place after a field; where it was refused, the end of the bits.
fn next_place(count: usize, read: FieldRead<u32>) -> usize
    ensures { result ≡ place_after count read }
{
    match read {
        FieldRead::Got(_, next) => next,
        FieldRead::Refused(_) => count,
    }
}
