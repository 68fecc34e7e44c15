// The lines that programs write on standard error of what their run met. Each stands at the start of `out`, and its length is given back.
ghost use Rattle.std.specs.Prelude.{◌≡◌, ◌≤◌, ◌++◌, length};
ghost use Rattle.io.specs.Counts.{IsPrefixLen};
ghost use Rattle.text.specs.Text.{decimal, over};
ghost use Rattle.account.specs.Said.{idle_text, missing_text, rest_text, chosen_text, nothing_text, before_text};

use text::{put, put_number};

// A number between words.
pub fn one_number(first: &[u8], n: u64, last: &[u8], out: &mut [u8; 128]) -> usize
    requires { (length first.now ≤ 20) × (length last.now ≤ 40) }
    ensures prefix_len { IsPrefixLen result out.new }
    ensures value { result ≡ length (first.now ++ decimal n ++ last.now) }
    ensures out_after { out.new ≡ over (first.now ++ decimal n ++ last.now) out.old }
{
    let named = put(first, 0, out);
    let begun = put_number(n, named, out);
    put(last, begun, out)
}

// Two numbers between words.
pub fn two_numbers(
    first: &[u8],
    a: u64,
    between: &[u8],
    b: u64,
    last: &[u8],
    out: &mut [u8; 128],
) -> usize
    requires { (length first.now ≤ 20) × (length between.now ≤ 20) × (length last.now ≤ 40) }
    ensures prefix_len { IsPrefixLen result out.new }
    ensures value { result ≡ length (first.now ++ decimal a ++ between.now ++ decimal b ++ last.now) }
    ensures out_after { out.new ≡ over (first.now ++ decimal a ++ between.now ++ decimal b ++ last.now) out.old }
{
    let named = put(first, 0, out);
    let begun = put_number(a, named, out);
    let joined = put(between, begun, out);
    let ended = put_number(b, joined, out);
    put(last, ended, out)
}

// Blocks that led to no picture.
#[tactic(auto, unfolding(crate::specs::Said::idle_text))]
pub fn idle(from: u64, to: u64, out: &mut [u8; 128]) -> usize
    ensures prefix_len { IsPrefixLen result out.new }
    ensures value { result ≡ length (idle_text from to) }
    ensures out_after { out.new ≡ over (idle_text from to) out.old }
{
    two_numbers(b"blocks ", from, b" to ", to, b" led to no picture\n", out)
}

// Pictures between two that were finished.
#[tactic(auto, unfolding(crate::specs::Said::missing_text))]
pub fn missing(from: u64, to: u64, out: &mut [u8; 128]) -> usize
    ensures prefix_len { IsPrefixLen result out.new }
    ensures value { result ≡ length (missing_text from to) }
    ensures out_after { out.new ≡ over (missing_text from to) out.old }
{
    two_numbers(b"pictures ", from, b" to ", to, b" are missing\n", out)
}

// Pictures after the last that was finished.
#[tactic(auto, unfolding(crate::specs::Said::rest_text))]
pub fn rest(from: u64, out: &mut [u8; 128]) -> usize
    ensures prefix_len { IsPrefixLen result out.new }
    ensures value { result ≡ length (rest_text from) }
    ensures out_after { out.new ≡ over (rest_text from) out.old }
{
    one_number(b"pictures from ", from, b" on are missing\n", out)
}

// Which clip the first good block chose.
#[tactic(auto, unfolding(crate::specs::Said::chosen_text))]
pub fn chosen(n: u64, clip: u16, out: &mut [u8; 128]) -> usize
    ensures prefix_len { IsPrefixLen result out.new }
    ensures value { result ≡ length (chosen_text n clip) }
    ensures out_after { out.new ≡ over (chosen_text n clip) out.old }
{
    two_numbers(b"block ", n, b" chooses clip ", clip as u64, b"\n", out)
}

// A stream in which no picture begins.
#[tactic(auto, unfolding(crate::specs::Said::nothing_text))]
pub fn nothing(bytes: u64, out: &mut [u8; 128]) -> usize
    ensures prefix_len { IsPrefixLen result out.new }
    ensures value { result ≡ length (nothing_text bytes) }
    ensures out_after { out.new ≡ over (nothing_text bytes) out.old }
{
    one_number(b"no picture in ", bytes, b" bytes\n", out)
}

// What stands before the first picture of a stream.
#[tactic(auto, unfolding(crate::specs::Said::before_text))]
pub fn before(bytes: u64, out: &mut [u8; 128]) -> usize
    ensures prefix_len { IsPrefixLen result out.new }
    ensures value { result ≡ length (before_text bytes) }
    ensures out_after { out.new ≡ over (before_text bytes) out.old }
{
    one_number(b"", bytes, b" bytes before the first picture\n", out)
}
