// Words compared; words and decimal numbers put into a lent buffer one after another.
#![tactic(auto)]

ghost use Rattle.std.specs.Prelude.{◌≡◌, ◌+◌, ◌≤◌, length};
ghost use Rattle.laws.specs.Lists.{alike};
ghost use Rattle.refusals.specs.Told.{numbers_of};
ghost use Rattle.text.specs.Text.{decimal, of_table, refusal_text};
ghost use Rattle.text.specs.Puts.{Puts};

use refusals::Refusal;

pub mod remarks;

// Whether two slices hold the same bytes.
#[tactic(auto, using(crate::proofs::Compared::equal_alike))]
pub fn same(a: &[u8], b: &[u8]) -> bool
    ensures { result ≡ alike a.now b.now }
{
    a == b
}

// Words are put one after another, and not by `write!`: that says which bytes it writes where it answers Ok, and nothing says that it does, while what is put here is put on every call
// (`value`, `out_after` of the remarks; `puts`).
//
// Puts words into `out` at a place, and answers the place after them.
pub fn put(words: &[u8], at: usize, out: &mut [u8]) -> usize
    requires { at + length words.now ≤ length out.old }
    ensures value { result ≡ at + length words.now }
    ensures puts { Puts words.now at out.old out.new result }
{
    let end = at + words.len();
    out[at..end].copy_from_slice(words);
    end
}

pub fn put_number(n: u64, at: usize, out: &mut [u8]) -> usize
    requires { at + 20 ≤ length out.old }
    ensures upper_bound { result ≤ at + 20 }
    ensures puts { Puts (decimal n) at out.old out.new result }
{
    let mut digits = [0u8; 20];
    let count = io::decimal(n, &mut digits);
    put(&digits[..count], at, out)
}

// " table 5", of a refusal 8.
fn put_table(numbered: u32, table: u32, at: usize, out: &mut [u8]) -> usize
    requires { at + 27 ≤ length out.old }
    ensures upper_bound { result ≤ at + 27 }
    ensures puts { Puts (of_table numbered table) at out.old out.new result }
{
    if numbered != 8 {
        return at;
    }
    let named = put(b" table ", at, out);
    put_number(table as u64, named, out)
}

// " refused 21", " refused 3 at 109", " refused 8 at 311 table 5".
pub fn put_refusal(why: Refusal, at: usize, out: &mut [u8]) -> usize
    requires { at + 80 ≤ length out.old }
    ensures upper_bound { result ≤ at + 80 }
    ensures puts { Puts (refusal_text (numbers_of why)) at out.old out.new result }
{
    let reason = why.reason;
    let numbered = refusals::number_of(reason);
    let named = put(b" refused ", at, out);
    let told = put_number(numbered as u64, named, out);
    if numbered < 3 {
        return told;
    }
    if 14 < numbered {
        return told;
    }
    let placing = put(b" at ", told, out);
    let placed = put_number(why.place as u64, placing, out);
    let table = refusals::table_of(reason);
    put_table(numbered, table, placed, out)
}
