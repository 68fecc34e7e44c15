// The vault's block of 512 bytes: judging one, and cutting a picture into them.
#![tactic(auto)]

ghost use Rattle.std.specs.Prelude.{◌≡◌, ◌++◌, ◌+◌, ◌-◌, ◌*◌, ◌/◌, ◌^◌, ◌≤◌, ◌<◌, min, eqb, length, drop, Err};
ghost use Rattle.std.proofs.lemmas.List.Edits.{sets};
ghost use Rattle.std.proofs.Math.Seq.{paste};
ghost use Rattle.laws.specs.Choice.{both};
ghost use Rattle.refusals.specs.Number.{refusal};
ghost use Rattle.vault.specs.Block.{pair_at, picture_of, header_of, pictures, greatest_part, refresh_rule, used_rule, header_ruled as ruled_of, unused, unused_clear, payload_of, fields_follow as follows_of, sum_of, told_checked, check_of, of_clip, same_standard, judge_of, standard_bit, standard_in, standard_mark, low_marks, marks_for, head_bytes, two_bytes, block_for};
ghost use Rattle.vault.specs.Renewed.{renewed_block, Renewing};
ghost use Rattle.vault.specs.Parts.{part_count, used_at, kept_byte, payload_at, header_at, blocks_of, PartIn, PayloadRoom, BlocksRoom, placed_payload};

use refusals::{Reason, Refusal};
use size::Size;

// What a clip's pictures are coded by.
#[derive(Clone, Copy, PartialEq, Eq)]
pub enum Standard {
    H261,
    H263,
}

// What a block says before its payload.
#[derive(Clone, Copy, PartialEq, Eq)]
pub struct Header {
    pub standard: Standard,
    pub clip: u16,
    pub picture: u32,
    pub part: u8,
    pub last: bool,
    pub refresh: bool,
    pub used: u16,
}

// How many pictures a clip can have.
pub const PICTURES: u32 = 1048576;

// ---- reading a block

// The number in two bytes, high byte first.
fn pair(block: &[u8], at: usize) -> u16
    requires { at + 1 < length block.now }
    ensures { result ≡ pair_at block.now at }
{
    256 * (block[at] as u16) + block[at + 1] as u16
}

// Byte 508 is the high byte, bytes 2 and 3 hold the rest.
fn picture_of(block: &[u8]) -> u32
    requires { length block.now ≡ 512 }
    ensures { result ≡ picture_of block.now }
{
    65536 * (block[508] as u32) + pair(block, 2) as u32
}

// Bit 2 of the marks says H.263.
fn standard_in(marks: u8) -> Standard
    ensures { result ≡ standard_in (standard_bit marks) }
{
    if marks / 4 % 2 == 1 {
        return Standard::H263;
    }
    Standard::H261
}

fn header_of(block: &[u8]) -> Header
    requires { length block.now ≡ 512 }
    ensures { result ≡ header_of block.now }
{
    let marks = block[5];
    let standard = standard_in(marks);
    Header {
        standard,
        clip: pair(block, 0),
        picture: picture_of(block),
        part: block[4],
        last: marks % 2 == 1,
        refresh: marks / 2 % 2 == 1,
        used: pair(block, 6),
    }
}

// The sum of i + 1 times byte i over bytes 0 to 509 stays below 2^32, so one division at the end is enough.
fn sum(block: &[u8]) -> u32
    requires { length block.now ≡ 512 }
    ensures { result ≡ sum_of block.now }
{
    let mut total: u32 = 0;
    for i in 0..510 {
        total += (i as u32 + 1) * (block[i] as u32);
    }
    total % 65521
}

// ---- the rules of its fields

fn greatest_part(size: Size) -> u8
    ensures { result ≡ greatest_part size }
{
    match size {
        Size::SubQcif => 16,
        Size::Qcif => 16,
        Size::Cif => 65,
    }
}

fn refresh_rule(header: Header) -> bool
    ensures { result ≡ refresh_rule header }
{
    if header.refresh {
        return header.part == 0;
    }
    true
}

fn used_rule(header: Header) -> bool
    ensures { result ≡ used_rule header }
{
    if header.used < 1 {
        return false;
    }
    if 4000 < header.used {
        return false;
    }
    if header.last {
        return true;
    }
    header.used == 4000
}

fn ruled(size: Size, header: Header) -> bool
    ensures { result ≡ ruled_of size header }
{
    if header.clip < 1 {
        return false;
    }
    if PICTURES <= header.picture {
        return false;
    }
    if greatest_part(size) < header.part {
        return false;
    }
    if !refresh_rule(header) {
        return false;
    }
    used_rule(header)
}

// 2 to the number of the bits of byte i that stand after the first `used`.
fn unused_weight(used: usize, i: usize) -> u32
    requires { i < 65536 }
    ensures { result ≡ 2 ^ unused used i }
{
    let end = 8 * (i + 1);
    if end <= used {
        return 1;
    }
    let bits = end - used;
    if 8 < bits {
        return 256;
    }
    1u32 << (bits as u32)
}

// The bytes before the one that bit `used` stands in have no unused bits.
fn unused_zero(block: &[u8], used: usize) -> bool
    requires { length block.now ≡ 512 }
    ensures { result ≡ unused_clear used (payload_of block.now) 500 }
{
    for i in used / 8..500 {
        let weight = unused_weight(used, i);
        if block[8 + i] as u32 % weight != 0 {
            return false;
        }
    }
    true
}

fn follows(size: Size, header: Header, block: &[u8]) -> bool
    requires { (length block.now ≡ 512) × (header ≡ header_of block.now) }
    ensures { result ≡ follows_of size block.now }
{
    if !ruled(size, header) {
        return false;
    }
    if 7 < block[5] {
        return false;
    }
    if !unused_zero(block, header.used as usize) {
        return false;
    }
    block[509] == 0
}

// ---- judging a block

fn refused(reason: Reason) -> Result<Header, Refusal>
    ensures { result ≡ Err (refusal reason 0) }
{
    Err(Refusal { reason, place: 0 })
}

// 1, 21, 22, or the block's header.
pub fn check(size: Size, block: &[u8]) -> Result<Header, Refusal>
    ensures { told_checked result ≡ check_of size block.now }
{
    if block.len() != 512 {
        return refused(Reason::Length);
    }
    let summed = sum(block);
    let said = pair(block, 510);
    if summed != said as u32 {
        return refused(Reason::BlockCheck);
    }
    let header = header_of(block);
    if !follows(size, header, block) {
        return refused(Reason::BlockField);
    }
    Ok(header)
}

// 1, 21, 22, 23, or the header of a block of this clip.
pub fn of_clip(size: Size, clip: u16, block: &[u8]) -> Result<Header, Refusal>
    ensures { told_checked result ≡ of_clip clip (check_of size block.now) }
{
    let header = check(size, block)?;
    if header.clip != clip {
        return refused(Reason::OtherClip);
    }
    Ok(header)
}

pub fn same_standard(a: Standard, b: Standard) -> bool
    ensures { result ≡ same_standard a b }
{
    a == b
}

// 1, 21, 22, 23, 5, or the header of a block of this clip, which has this standard.
pub fn judge(size: Size, standard: Standard, clip: u16, block: &[u8]) -> Result<Header, Refusal>
    ensures { told_checked result ≡ judge_of size standard clip block.now }
{
    let header = of_clip(size, clip, block)?;
    if !same_standard(header.standard, standard) {
        return refused(Reason::OtherFormat);
    }
    Ok(header)
}

// ---- making blocks

fn standard_mark(standard: Standard) -> u8
    ensures { result ≡ standard_mark standard }
{
    match standard {
        Standard::H261 => 0,
        Standard::H263 => 4,
    }
}

// The marks of the last part and of a refresh.
fn low_marks(header: Header) -> u8
    ensures { result ≡ low_marks header }
{
    if header.last {
        if header.refresh {
            return 3;
        }
        return 1;
    }
    if header.refresh {
        return 2;
    }
    0
}

fn marks(header: Header) -> u8
    ensures { result ≡ marks_for header }
{
    let standard = header.standard;
    standard_mark(standard) + low_marks(header)
}

fn write_head(header: Header, block: &mut [u8])
    requires { length block.old ≡ 512 }
    ensures { block.new ≡ sets block.old 0 (head_bytes header) }
{
    let clip = header.clip;
    let low = header.picture % 65536;
    let used = header.used;
    let marked = marks(header);
    block[0] = (clip / 256) as u8;
    block[1] = (clip % 256) as u8;
    block[2] = (low / 256) as u8;
    block[3] = (low % 256) as u8;
    block[4] = header.part;
    block[5] = marked;
    block[6] = (used / 256) as u8;
    block[7] = (used % 256) as u8;
}

// Byte i of a picture of `count` bits.
fn kept(bytes: &[u8], count: usize, i: usize) -> u8
    requires { i < 65536 }
    ensures { result ≡ kept_byte bytes.now count i }
{
    if bytes.len() <= i {
        return 0;
    }
    let weight = unused_weight(count, i);
    (bytes[i] as u32 / weight * weight) as u8
}

// How many of the 500 bytes from `from` on a picture of `count` bits fills.
fn whole_bytes(count: usize, from: usize) -> usize
    ensures { result ≡ min 500 (count / 8 - from) }
{
    let whole = count / 8;
    if whole < from {
        return 0;
    }
    let left = whole - from;
    if left < 500 {
        return left;
    }
    500
}

// Whole bytes are copied as they are: how many they are.
fn copy_whole(bytes: &[u8], count: usize, part: usize, block: &mut [u8]) -> usize
    requires { PayloadRoom bytes.now count part block.old }
    ensures value { result ≡ min 500 (count / 8 - 500 * part) }
    ensures block_after { block.new ≡ paste block.old 8 (payload_at bytes.now count part) (min 500 (count / 8 - 500 * part)) }
{
    let from = 500 * part;
    let whole = whole_bytes(count, from);
    // Where none is whole, `from` may lie past the bytes.
    if whole == 0 {
        return 0;
    }
    block[8..8 + whole].copy_from_slice(&bytes[from..from + whole]);
    whole
}

// Of the rest only the picture's bits are kept.
fn write_payload(bytes: &[u8], count: usize, part: usize, block: &mut [u8])
    requires { PayloadRoom bytes.now count part block.old }
    ensures { block.new ≡ paste block.old 8 (payload_at bytes.now count part) 500 }
{
    let from = 500 * part;
    let whole = copy_whole(bytes, count, part, block);
    for j in whole..500 {
        block[8 + j] = kept(bytes, count, from + j);
    }
}

fn write_sum(block: &mut [u8])
    requires { length block.old ≡ 512 }
    ensures { block.new ≡ sets block.old 510 (two_bytes (sum_of block.old)) }
{
    let summed = sum(block);
    block[510] = (summed / 256) as u8;
    block[511] = (summed % 256) as u8;
}

fn write_block(header: Header, bytes: &[u8], count: usize, block: &mut [u8])
    requires { (PayloadRoom bytes.now count header.part block.old) × (header.picture < pictures) }
    ensures { block.new ≡ block_for header (payload_at bytes.now count header.part) }
{
    let part = header.part as usize;
    write_head(header, block);
    write_payload(bytes, count, part, block);
    block[508] = (header.picture / 65536) as u8;
    block[509] = 0;
    write_sum(block);
}

fn part_count(count: usize) -> usize
    requires { count ≤ 262144 }
    ensures { result ≡ part_count count }
{
    (count + 3999) / 4000
}

fn refresh_at(refresh: bool, part: usize) -> bool
    ensures { result ≡ both refresh (eqb part 0) }
{
    if refresh {
        return part == 0;
    }
    false
}

fn used_at(count: usize, part: usize) -> u16
    requires { 4000 * part ≤ count }
    ensures { result ≡ used_at count part }
{
    let left = count - 4000 * part;
    if left < 4000 {
        return left as u16;
    }
    4000
}

fn header_at(
    standard: Standard,
    clip: u16,
    picture: u32,
    refresh: bool,
    count: usize,
    part: usize,
) -> Header
    requires { PartIn count part }
    ensures { result ≡ header_at standard clip picture refresh count part }
{
    let parts = part_count(count);
    Header {
        standard,
        clip,
        picture,
        part: part as u8,
        last: part + 1 == parts,
        refresh: refresh_at(refresh, part),
        used: used_at(count, part),
    }
}

// All blocks of a picture of `count` bits, from the start of `out` on, and how many they are.
pub fn blocks(
    standard: Standard,
    clip: u16,
    picture: u32,
    refresh: bool,
    bytes: &[u8],
    count: usize,
    out: &mut [u8],
) -> usize
    requires { BlocksRoom picture bytes.now count out.old }
    ensures value { result ≡ part_count count }
    ensures out_after { out.new ≡ blocks_of standard clip picture refresh bytes.now count ++ drop (512 * part_count count) out.old }
{
    let parts = part_count(count);
    for part in 0..parts {
        let at = 512 * part;
        let end = at + 512;
        let header = header_at(standard, clip, picture, refresh, count, part);
        write_block(header, bytes, count, &mut out[at..end]);
    }
    parts
}

// The block for another clip, under another number: all between its number and its high byte stays.
pub fn renew(clip: u16, picture: u32, block: &[u8], out: &mut [u8])
    requires { Renewing picture block.now out.old }
    ensures { out.new ≡ renewed_block clip picture block.now }
{
    let low = picture % 65536;
    out.copy_from_slice(block);
    out[0] = (clip / 256) as u8;
    out[1] = (clip % 256) as u8;
    out[2] = (low / 256) as u8;
    out[3] = (low % 256) as u8;
    out[508] = (picture / 65536) as u8;
    out[509] = 0;
    write_sum(out);
}

// ---- putting a part where its picture is collected

// The payload goes to 500 times the part.
pub fn place(block: &[u8], part: u8, collection: &mut [u8])
    requires { (length block.now ≡ 512) × (500 * part + 500 ≤ length collection.old) }
    ensures { collection.new ≡ placed_payload block.now part collection.old }
{
    let at = 500 * (part as usize);
    let end = at + 500;
    collection[at..end].copy_from_slice(&block[8..508]);
}
