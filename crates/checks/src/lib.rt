// What the test programs share: numbers, kinds and descriptions in records, lent and filled buffers, the check by which a long output is compared in a line, and what they
// print.
#![tactic(auto)]

ghost use Rattle.std.specs.Prelude.{◌≡◌, true, ◌+◌, ◌-◌, ◌*◌, ◌<◌, ◌≤◌, min, length, replicate};
ghost use Rattle.io.specs.Counts.{IsPrefixLen};
ghost use Rattle.laws.specs.Choice.{pick};
ghost use Rattle.laws.specs.Lists.{alike};
ghost use Rattle.checks.specs.Check.{check_from};
ghost use Rattle.checks.specs.Input.{kind_numbered, Kept, room_for};

use coding::Kind;
use h261_groups::Format;
use refusals::Refusal;
use size::Size;
use std::env::Env;
use std::io::{Read, Write};

// ---- records

// How many bytes of a description's slices were read.
#[derive(Clone, Copy, PartialEq, Eq, Debug)]
pub struct Lengths {
    pub head: usize,
    pub macroblocks: usize,
    pub levels: usize,
}

fn wide(x: u8) -> u64
    ensures { (result ≡ x) × (result ≤ 255) }
{
    x as u64
}

fn size(x: u8) -> usize
    ensures { (result ≡ x) × (result ≤ 255) }
{
    x as usize
}

// The number in two bytes, high byte first.
pub fn two(a: u8, b: u8) -> usize
    ensures { result ≡ 256 * a + b }
{
    256 * size(a) + size(b)
}

// The number in four bytes, high byte first.
pub fn four(a: u8, b: u8, c: u8, d: u8) -> usize
    ensures { result ≡ 16777216 * a + 65536 * b + 256 * c + d }
{
    16777216 * size(a) + 65536 * size(b) + 256 * size(c) + size(d)
}

// A clip in two bytes, high byte first.
pub fn clip_of(a: u8, b: u8) -> u16
    ensures { result ≡ 256 * a + b }
{
    two(a, b) as u16
}

// A picture's number, or its tick, in four bytes, high byte first.
pub fn picture_of(a: u8, b: u8, c: u8, d: u8) -> u32
    ensures { result ≡ 16777216 * a + 65536 * b + 256 * c + d }
{
    four(a, b, c, d) as u32
}

// The kind that a record's first byte names: 0 QCIF and 1 CIF of H.261, 2 sub-QCIF, 3 QCIF and else CIF of H.263.
pub fn kind_named(byte: u8) -> Kind
    ensures { result ≡ kind_numbered byte }
{
    match byte {
        0 => Kind::H261(Format::Qcif),
        1 => Kind::H261(Format::Cif),
        2 => Kind::H263(Size::SubQcif),
        3 => Kind::H263(Size::Qcif),
        _ => Kind::H263(Size::Cif),
    }
}

// Whether the input fills a buffer.
pub fn fills<I: Read>(stdin: &mut I, buffer: &mut [u8]) -> bool
    ensures { Kept buffer.old buffer.new }
{
    stdin.read_exact(buffer).is_ok()
}

// A description from the input: its lengths in four bytes each, and its slices. Nothing where the input ends, or a slice is beyond the room for it.
pub fn next_description<I: Read>(
    stdin: &mut I,
    head: &mut [u8],
    macroblocks: &mut [u8],
    levels: &mut [u8],
) -> Option<Lengths>
    ensures levels_value { room_for result (length head.old) (length macroblocks.old) (length levels.old) ≡ true }
    ensures kept { (Kept head.old head.new) × (Kept macroblocks.old macroblocks.new) × (Kept levels.old levels.new) }
{
    let mut start = [0u8; 12];
    if !fills(stdin, &mut start) {
        return None;
    }
    let heads = four(start[0], start[1], start[2], start[3]);
    let fields = four(start[4], start[5], start[6], start[7]);
    let coefficients = four(start[8], start[9], start[10], start[11]);
    if !fills_part(stdin, heads, head) {
        return None;
    }
    if !fills_part(stdin, fields, macroblocks) {
        return None;
    }
    if !fills_part(stdin, coefficients, levels) {
        return None;
    }
    Some(Lengths {
        head: heads,
        macroblocks: fields,
        levels: coefficients,
    })
}

// ---- buffers

// How much of a buffer that many bytes of it are: no more than there are.
pub fn part(count: usize, buffer: &[u8]) -> usize
    ensures prefix_len { IsPrefixLen result buffer.now }
    ensures value { result ≡ min count (length buffer.now) }
{
    if count < buffer.len() {
        return count;
    }
    buffer.len()
}

// Whether the input fills that many bytes of a buffer.
pub fn fills_part<I: Read>(stdin: &mut I, count: usize, buffer: &mut [u8]) -> bool
    ensures count_in_bounds { result ≡ true → count ≤ length buffer.old }
    ensures kept { Kept buffer.old buffer.new }
{
    let all = part(count, buffer);
    if all < count {
        return false;
    }
    fills(stdin, &mut buffer[..all])
}

// How much of a buffer is lent: without its last byte where it is the one that is too short.
pub fn lent(length: usize, short: bool) -> usize
    ensures { (result ≡ pick short (length - 1) length) × (result ≤ length) }
{
    if short {
        if 0 < length {
            return length - 1;
        }
    }
    length
}

// Whether every byte is the value.
pub fn is_filled(buffer: &[u8], value: u8) -> bool
    ensures { result ≡ alike buffer.now (replicate (length buffer.now) value) }
{
    for &byte in buffer {
        if byte != value {
            return false;
        }
    }
    true
}

// ---- the check

// The check h after these bytes too.
fn check_on(h: u64, bytes: &[u8]) -> u64
    requires { h < 4294967291 }
    ensures { (result ≡ check_from h bytes.now) × (result < 4294967291) }
{
    let mut on = h;
    for &byte in bytes {
        on = (65599 * on + wide(byte)) % 4294967291;
    }
    on
}

pub fn check(bytes: &[u8]) -> u64
    ensures { result ≡ check_from 1 bytes.now }
{
    check_on(1, bytes)
}

// The check of a description: over its three slices in this order.
pub fn check_description(head: &[u8], macroblocks: &[u8], levels: &[u8]) -> u64
    ensures { result ≡ check_from (check_from (check_from 1 head.now) macroblocks.now) levels.now }
{
    let h = check_on(1, head);
    let on = check_on(h, macroblocks);
    check_on(on, levels)
}

// ---- what is printed: no contract can say it, so each of these promises its answer alone

pub fn say<O: Write>(stdout: &mut O, text: &[u8])
    ensures { result ≡ tt }
{
    let _ = stdout.write_all(text);
}

// "12"
pub fn say_decimal<O: Write>(stdout: &mut O, n: u64)
    ensures { result ≡ tt }
{
    let mut digits = [0u8; 20];
    let count = io::decimal(n, &mut digits);
    say(stdout, &digits[..count]);
}

// " 12"
pub fn say_number<O: Write>(stdout: &mut O, n: u64)
    ensures { result ≡ tt }
{
    say(stdout, b" ");
    say_decimal(stdout, n);
}

pub fn say_check<O: Write>(stdout: &mut O, bytes: &[u8])
    ensures { result ≡ tt }
{
    say_number(stdout, check(bytes));
}

// The first bytes of a text that begins with a space, without it.
pub fn say_unspaced<O: Write>(stdout: &mut O, count: usize, text: &[u8])
    ensures { result ≡ tt }
{
    let end = part(count, text);
    if 1 <= end {
        say(stdout, &text[1..end]);
    }
}

// "refused 21", "refused 8 at 311 table 5"
pub fn say_refusal<O: Write>(stdout: &mut O, why: Refusal)
    ensures { result ≡ tt }
{
    let mut text = [0u8; 80];
    let count = text::put_refusal(why, 0, &mut text);
    say_unspaced(stdout, count, &text);
}

// Puts word i at the start of `word` and answers its length, or 0 where it is missing or longer than that.
pub fn arg(env: &impl Env, i: usize, word: &mut [u8]) -> usize
    ensures { IsPrefixLen result word.new }
{
    match env.arg(i, word) {
        Ok(count) => count,
        Err(_) => 0,
    }
}
