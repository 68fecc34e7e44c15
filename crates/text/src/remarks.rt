// The lines that programs write on standard error. Each stands at the start of `out`, and its length is given back.
ghost use Rattle.std.specs.Prelude.{◌≡◌, length};
ghost use Rattle.io.specs.Counts.{IsPrefixLen};
ghost use Rattle.text.specs.Text.{over};
ghost use Rattle.text.specs.Remarks.{count_text, refused_text, progress_text};

use crate::{put, put_number, put_refusal};
use refusals::Refusal;

// How many pictures there were.
pub fn pictures(count: u64, out: &mut [u8; 128]) -> usize
    ensures prefix_len { IsPrefixLen result out.new }
    ensures value { result ≡ length (count_text count) }
    ensures out_after { out.new ≡ over (count_text count) out.old }
{
    let counted = put_number(count, 0, out);
    put(b" pictures\n", counted, out)
}

// A refused picture of a stream.
pub fn refused(offset: u64, why: Refusal, out: &mut [u8; 128]) -> usize
    ensures prefix_len { IsPrefixLen result out.new }
    ensures value { result ≡ length (refused_text offset why) }
    ensures out_after { out.new ≡ over (refused_text offset why) out.old }
{
    let named = put(b"byte ", 0, out);
    let numbered = put_number(offset, named, out);
    let parted = put(b":", numbered, out);
    let told = put_refusal(why, parted, out);
    put(b"\n", told, out)
}

// How far a stream has come: over the line that a terminal shows last.
pub fn progress(pictures: u64, offset: u64, out: &mut [u8; 128]) -> usize
    ensures prefix_len { IsPrefixLen result out.new }
    ensures value { result ≡ length (progress_text pictures offset) }
    ensures out_after { out.new ≡ over (progress_text pictures offset) out.old }
{
    let cleared = put(b"\r\x1b[K", 0, out);
    let counted = put_number(pictures, cleared, out);
    let named = put(b" pictures, byte ", counted, out);
    put_number(offset, named, out)
}
