// Bits of lent bytes, most significant first: fields, codewords by a tree and by entries for their first bits, and the bit writer.
#![tactic(auto)]

ghost use Rattle.std.specs.Prelude.{◌≡◌, ◌+◌, ◌*◌, ◌≤◌, ◌<◌, length, get_or};
ghost use Rattle.bits.specs.Bits.{bits_of, value, bits_left};
ghost use Rattle.bits.specs.Read.{field as field_read};
ghost use Rattle.bits.specs.Answer.{Within, as_field, refusal_of};
ghost use Rattle.bits.specs.Tree.{walk_of};
ghost use Rattle.bits.specs.Entries.{EntryAsked, entry_read, without_entry};
ghost use Rattle.bits.specs.Write.{bytes_with};
ghost use Rattle.bits.specs.Appended.{FieldFits, WroteBits, CountablePlace};

use refusals::{Reason, Refusal, Table};

pub mod codeword;
pub mod settled;

// A place that counts: the number of a bit, and how many fields and codewords were read before it.
#[derive(Clone, Copy, PartialEq, Eq, Debug)]
pub struct Place {
    pub bit: usize,
    pub reads: usize,
}

// A refusal, and how many fields and codewords were read up to it, the failed one with them.
#[derive(Clone, Copy, PartialEq, Eq, Debug)]
pub struct Stopped {
    pub refusal: Refusal,
    pub reads: usize,
}

// "each read gives either a meaning with the next place or a refusal": a field's number, or what a codeword means.
#[derive(Clone, Copy, PartialEq, Eq, Debug)]
pub enum FieldRead<T> {
    Got(T, usize),
    Refused(Refusal),
}

impl<T> FieldRead<T> {
    // The refusal of a read that was refused.
    pub fn refusal(self) -> Refusal
    where
        T: Copy,
        ensures { result ≡ refusal_of self }
    {
        match self {
            FieldRead::Got(_, at) => Refusal {
                reason: Reason::BitsEnd,
                place: at,
            },
            FieldRead::Refused(refusal) => refusal,
        }
    }
}

fn joined(b0: u8, b1: u8, b2: u8, b3: u8) -> u32
    ensures { result ≡ b0 * 16777216 + b1 * 65536 + b2 * 256 + b3 }
{
    (b0 as u32) * 16777216 + (b1 as u32) * 65536 + (b2 as u32) * 256 + (b3 as u32)
}

// The byte at j, or 0 past the end.
fn byte_at(bytes: &[u8], j: usize) -> u8
    ensures { result ≡ get_or bytes.now j 0 }
{
    if j < bytes.len() { bytes[j] } else { 0 }
}

// The four bytes from j on as a number: one load where the slice has them.
fn four(bytes: &[u8], j: usize) -> u32
    requires { j < 2305843009213693952 }
    ensures { result ≡ value bytes.now (j * 8) 32 }
{
    if j + 4 <= bytes.len() {
        joined(bytes[j], bytes[j + 1], bytes[j + 2], bytes[j + 3])
    } else {
        joined(
            byte_at(bytes, j),
            byte_at(bytes, j + 1),
            byte_at(bytes, j + 2),
            byte_at(bytes, j + 3),
        )
    }
}

// The 24 bits from `at` as a number, whether they are the picture's or not; 0 past the slice's end.
pub fn window(bytes: &[u8], at: usize) -> u32
    ensures { result ≡ value bytes.now at 24 }
{
    let whole = four(bytes, at / 8);
    (whole << (at % 8)) / 256
}

// A field of `width` bits. "A field with too few bits left is 3, whatever they hold."
pub fn field(bytes: &[u8], count: usize, at: usize, width: usize) -> FieldRead<u32>
    requires { (Within bytes.now count at) × (width ≤ 24) }
    ensures { as_field bytes.now count result ≡ field_read width (bits_left bytes.now count at) at }
{
    if width <= count - at {
        let after = 24 - width;
        FieldRead::Got(window(bytes, at) >> after, at + width)
    } else {
        FieldRead::Refused(Refusal {
            reason: Reason::BitsEnd,
            place: at,
        })
    }
}

// The codeword of a table at `at`, by a tree of depth 16 at most, over one window: node q has its two children at 2 q and 2 q + 1. A child is 0 (no
// codeword goes that way), the number of a node below 256, or 256 more than a codeword's meaning.
pub fn walk(
    tree: &[u16],
    root: usize,
    table: Table,
    bytes: &[u8],
    count: usize,
    at: usize,
) -> FieldRead<u32>
    requires { (Within bytes.now count at) × (root < 256) }
    ensures { as_field bytes.now count result ≡ walk_of table 16 tree.now root (bits_left bytes.now count at) at at }
{
    let bits = window(bytes, at);
    let left = count - at;
    let mut node = root;
    for taken in 0..16 {
        if left <= taken {
            return FieldRead::Refused(Refusal {
                reason: Reason::BitsEnd,
                place: at,
            });
        }
        let after = 23 - taken;
        let bit = ((bits >> after) % 2) as usize;
        let i = node * 2 + bit;
        if tree.len() <= i {
            return FieldRead::Refused(Refusal {
                reason: Reason::NoCodeword(table),
                place: at,
            });
        }
        let v = tree[i];
        if v == 0 {
            return FieldRead::Refused(Refusal {
                reason: Reason::NoCodeword(table),
                place: at,
            });
        }
        if 256 <= v {
            return FieldRead::Got((v - 256) as u32, at + taken + 1);
        }
        node = v as usize;
    }
    FieldRead::Refused(Refusal {
        reason: Reason::NoCodeword(table),
        place: at,
    })
}

// The entry for the `width` bits from `at`, in a table of entries by bits; where fewer are left, the one that decides nothing.
pub fn entry(table: &[u16], from: usize, width: usize, bytes: &[u8], count: usize, at: usize) -> u16
    requires { EntryAsked table.now from width count at }
    ensures { result ≡ entry_read table.now from width bytes.now count at }
{
    if count - at < width {
        return 32;
    }
    let after = 24 - width;
    let number = window(bytes, at) >> after;
    table[from + number as usize]
}

// The codeword at `at` where its entry has no length: no codeword stands there, or the tree decides.
pub fn without_entry(
    tree: &[u16],
    root: usize,
    table: Table,
    found: u16,
    bytes: &[u8],
    count: usize,
    at: usize,
) -> FieldRead<u32>
    requires { (Within bytes.now count at) × (root < 256) }
    ensures { as_field bytes.now count result ≡ without_entry table tree.now root found (bits_left bytes.now count at) at }
{
    if found == 0 {
        return FieldRead::Refused(Refusal {
            reason: Reason::NoCodeword(table),
            place: at,
        });
    }
    walk(tree, root, table, bytes, count, at)
}

// `value` in `width` bits at `at`. The rest of the last byte that they start is zeroed, and no byte after it is touched.
pub fn put(out: &mut [u8], at: usize, width: usize, value: u32)
    requires { (FieldFits width value) × (at + width ≤ 8 * length out.old) }
    ensures { out.new ≡ bytes_with out.old at (bits_of width value) }
{
    let from = at / 8;
    let before = at % 8;
    let many = (before + width + 7) / 8;
    let kept = (out[from] as u32) >> (8 - before);
    let number = ((kept << width) + value) << (many * 8 - (before + width));
    for i in 0..many {
        let after = (many - 1 - i) * 8;
        out[from + i] = ((number >> after) % 256) as u8;
    }
}

// `value` in `width` bits at `at`, as far as the output has room for them; the place after them, whether it has or not.
pub fn append(out: &mut [u8], at: usize, width: usize, value: u32) -> usize
    requires { (FieldFits width value) × (CountablePlace at (bits_of width value)) }
    ensures { WroteBits (bits_of width value) out.old at out.new result }
{
    let after = at + width;
    if (after + 7) / 8 <= out.len() {
        put(out, at, width, value);
        return after;
    }
    if at / 8 < out.len() {
        let room = out.len() * 8 - at;
        put(out, at, room, value >> (width - room));
    }
    after
}
