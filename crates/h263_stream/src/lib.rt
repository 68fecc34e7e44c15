// A raw H.263 stream, byte by byte: its pictures begin at bytes, at their start codes, and end before the next start code or end code at a byte.
#![tactic(auto)]

ghost use Rattle.std.specs.Prelude.{◌≡◌, ◌+◌, ◌-◌, ◌^◌, ◌<◌, length, drop, set};
ghost use Rattle.refusals.specs.Told.{numbers_of, told_verdict, verdict_on, found_or};
ghost use Rattle.fields.specs.Answer.{found};
ghost use Rattle.layout.specs.Flat.{flat};
ghost use Rattle.h263_description.specs.Value.{head_length, macroblocks_length, levels_length};
ghost use Rattle.h263_reader.specs.Described.{described};
ghost use Rattle.h263_stream.specs.Stream.{one_more, fresh_stream, is_code, starts_at, ends_at, code_at, begun_by, ended_by, longer_by, stream_after, beginning, kept_after};
ghost use Rattle.h263_stream.specs.Passed.{ran_from, kept_from, before_code};
ghost use Rattle.h263_stream.specs.Filled.{fills_from, ends_after, ends_within, is_dropped, room_of, all_bits, bits_to, bits_refused, picture_bits, picture_read};

use coding::Kind;
use refusals::Refusal;
use size::Size;

// What has gone by of a stream.
#[derive(Clone, Copy, PartialEq, Eq)]
pub struct Stream {
    // How many bytes, and the last two of them.
    pub place: usize,
    pub older: u8,
    pub last: u8,
    // Whether a picture has begun, and whether no code has ended it.
    pub begun: bool,
    pub ongoing: bool,
    // The byte where it begins, and its bytes so far, those of the next code too.
    pub offset: usize,
    pub count: usize,
}

// ---- a byte

pub fn open() -> Stream
    ensures { result ≡ fresh_stream }
{
    Stream {
        place: 0,
        older: 255,
        last: 255,
        begun: false,
        ongoing: false,
        offset: 0,
        count: 0,
    }
}

fn one_more(n: usize) -> usize
    ensures { result ≡ one_more n }
{
    if n < 18446744073709551615 {
        return n + 1;
    }
    n
}

// How far `to` is from `from`, or 0.
fn left_from(to: usize, from: usize) -> usize
    ensures { result ≡ to - from }
{
    if to < from {
        return 0;
    }
    to - from
}

fn is_code(six: u8, a: u8, b: u8, c: u8) -> bool
    ensures { result ≡ is_code six a b c }
{
    if a != 0 {
        return false;
    }
    if b != 0 {
        return false;
    }
    c / 4 == six
}

// Whether this byte completes a picture's start code: the picture before it, if one is open, had 2 bytes less than were counted.
pub fn starts(stream: Stream, byte: u8) -> bool
    ensures { result ≡ starts_at stream byte }
{
    is_code(32, stream.older, stream.last, byte)
}

// Whether it completes an end code: the same holds.
pub fn ends(stream: Stream, byte: u8) -> bool
    ensures { result ≡ ends_at stream byte }
{
    is_code(63, stream.older, stream.last, byte)
}

fn begun_by(stream: Stream, byte: u8) -> Stream
    ensures { result ≡ begun_by stream byte }
{
    let place = one_more(stream.place);
    let offset = left_from(stream.place, 2);
    Stream {
        place,
        older: stream.last,
        last: byte,
        begun: true,
        ongoing: true,
        offset,
        count: 3,
    }
}

fn ended_by(stream: Stream, byte: u8) -> Stream
    ensures { result ≡ ended_by stream byte }
{
    let place = one_more(stream.place);
    Stream {
        place,
        older: stream.last,
        last: byte,
        begun: stream.begun,
        ongoing: false,
        offset: stream.offset,
        count: 0,
    }
}

fn longer_by(stream: Stream, byte: u8) -> Stream
    ensures { result ≡ longer_by stream byte }
{
    let place = one_more(stream.place);
    let count = one_more(stream.count);
    Stream {
        place,
        older: stream.last,
        last: byte,
        begun: stream.begun,
        ongoing: stream.ongoing,
        offset: stream.offset,
        count,
    }
}

fn keep(at: usize, byte: u8, picture: &mut [u8])
    ensures { picture.new ≡ set picture.old at byte }
{
    if at < picture.len() {
        picture[at] = byte;
    }
}

fn begin(byte: u8, picture: &mut [u8])
    ensures { picture.new ≡ beginning byte picture.old }
{
    keep(0, 0, picture);
    keep(1, 0, picture);
    keep(2, byte, picture);
}

// One more byte: what has gone by then, and the picture's bytes in the lent buffer, as far as it reaches.
pub fn push(stream: Stream, byte: u8, picture: &mut [u8]) -> Stream
    ensures value { result ≡ stream_after stream byte }
    ensures picture_after { picture.new ≡ kept_after stream byte picture.old }
{
    if starts(stream, byte) {
        begin(byte, picture);
        return begun_by(stream, byte);
    }
    if ends(stream, byte) {
        return ended_by(stream, byte);
    }
    keep(stream.count, byte, picture);
    longer_by(stream, byte)
}

// ---- the bytes up to the next code

// Whether this byte completes a code.
pub fn completes(stream: Stream, byte: u8) -> bool
    ensures { result ≡ code_at stream byte }
{
    if starts(stream, byte) {
        return true;
    }
    ends(stream, byte)
}

// What has gone by, and the place in the lent bytes of the next one.
#[derive(Clone, Copy, PartialEq, Eq)]
pub struct Passed {
    pub stream: Stream,
    pub at: usize,
}

// The bytes from one of them on up to that which completes the next code, or up to their end: what has gone by then, the place of the next byte, and the picture's bytes in
// the lent buffer, as far as it reaches.
pub fn pass(stream: Stream, bytes: &[u8], from: usize, picture: &mut [u8]) -> Passed
    ensures stream_value { result.stream ≡ ran_from stream (before_code stream (drop from bytes.now)) }
    ensures at_value { result.at ≡ from + length (before_code stream (drop from bytes.now)) }
    ensures picture_after { picture.new ≡ kept_from stream (before_code stream (drop from bytes.now)) picture.old }
{
    let mut next = stream;
    for i in from..bytes.len() {
        let byte = bytes[i];
        if completes(next, byte) {
            return Passed {
                stream: next,
                at: i,
            };
        }
        next = push(next, byte, picture);
    }
    Passed {
        stream: next,
        at: from.max(bytes.len()),
    }
}

// ---- a picture

// Whether less than eight zeros are left.
fn fills(bytes: &[u8], all: usize, at: usize) -> bool
    ensures { result ≡ fills_from bytes.now all at }
{
    let left = left_from(all, at);
    if 8 <= left {
        return false;
    }
    bits::window(bytes, at) >> (24 - left) == 0
}

// Whether an end code stands after so many zeros.
fn ends_after(bytes: &[u8], all: usize, at: usize, zeros: usize) -> bool
    requires { zeros < 8 }
    ensures { result ≡ ends_after bytes.now all at zeros }
{
    let left = left_from(all, at);
    if left < zeros + 22 {
        return false;
    }
    if bits::window(bytes, at) >> 8 != 0 {
        return false;
    }
    bits::window(bytes, at + 16) >> (18 - zeros) == 63
}

fn ends_within(bytes: &[u8], all: usize, at: usize) -> bool
    ensures { result ≡ ends_within bytes.now all at 8 }
{
    (0..8).any(|zeros| ends_after(bytes, all, at, zeros))
}

fn is_dropped(bytes: &[u8], all: usize, at: usize) -> bool
    ensures { result ≡ is_dropped bytes.now all at }
{
    if fills(bytes, all, at) {
        return true;
    }
    ends_within(bytes, all, at)
}

// How many of a picture's bytes matter: more of them are never looked at.
pub fn room(size: Size) -> usize
    ensures { result ≡ room_of size }
{
    match size {
        Size::SubQcif => 8200,
        Size::Qcif => 8200,
        Size::Cif => 32776,
    }
}

fn all_bits(size: Size, count: usize) -> usize
    ensures { result ≡ all_bits size count }
{
    let most = room(size);
    8 * count.min(most)
}

fn bits_to(bytes: &[u8], all: usize, end: usize) -> usize
    ensures { result ≡ bits_to bytes.now all end }
{
    if is_dropped(bytes, all, end) {
        return end;
    }
    all
}

fn bits_refused(bytes: &[u8], all: usize, why: Refusal) -> usize
    ensures { result ≡ bits_refused bytes.now all (numbers_of why) }
{
    let reason = why.reason;
    let number = refusals::number_of(reason);
    if number == 13 {
        return bits_to(bytes, all, why.place);
    }
    all
}

// ---- the verdict alone, with scratch in the size's own lengths

fn judge_in<const HEAD: usize, const MACROBLOCKS: usize, const LEVELS: usize>(
    size: Size,
    bytes: &[u8],
    count: usize,
) -> Result<(), Refusal>
    requires lengths { (HEAD ≡ head_length size) × (MACROBLOCKS ≡ macroblocks_length size) × (LEVELS ≡ levels_length size) }
    // An array of a parameter's length has to have a size.
    requires sizes { (HEAD < 2 ^ 20) × (MACROBLOCKS < 2 ^ 20) × (LEVELS < 2 ^ 20) }
    ensures { told_verdict result ≡ verdict_on (found (described size bytes.now count)) }
{
    let mut head = [0u8; HEAD];
    let mut macroblocks = [0u8; MACROBLOCKS];
    let mut levels = [0u8; LEVELS];
    let read = h263_reader::parse_counted(
        bytes,
        count,
        size,
        &mut head,
        &mut macroblocks,
        &mut levels,
    );
    read.verdict
}

fn judge(size: Size, bytes: &[u8], count: usize) -> Result<(), Refusal>
    ensures { told_verdict result ≡ verdict_on (found (described size bytes.now count)) }
{
    match size {
        Size::SubQcif => judge_in::<11, 192, 18432>(Size::SubQcif, bytes, count),
        Size::Qcif => judge_in::<14, 396, 38016>(Size::Qcif, bytes, count),
        Size::Cif => judge_in::<23, 1584, 152064>(Size::Cif, bytes, count),
    }
}

// N of a picture of `count` bytes, of which the slice holds those that it has room for: without up to seven zeros after its last macroblock, or up to seven and an end code.
pub fn picture_bits(size: Size, bytes: &[u8], count: usize) -> usize
    ensures { result ≡ picture_bits size bytes.now count }
{
    let all = all_bits(size, count);
    let seen = all.min(size::limit(size));
    let verdict = judge(size, bytes, seen);
    match verdict {
        Ok(()) => bits_to(bytes, all, seen),
        Err(why) => bits_refused(bytes, all, why),
    }
}

// The verdict on it, and the description in the lent buffers.
pub fn read(
    size: Size,
    bytes: &[u8],
    count: usize,
    head: &mut [u8],
    macroblocks: &mut [u8],
    levels: &mut [u8],
) -> Result<(), Refusal>
    ensures verdict { told_verdict result ≡ verdict_on (picture_read size bytes.now count (flat head.old macroblocks.old levels.old)) }
    ensures buffers { flat head.new macroblocks.new levels.new ≡ found_or (flat head.old macroblocks.old levels.old) (picture_read size bytes.now count (flat head.old macroblocks.old levels.old)) }
{
    let bits = picture_bits(size, bytes, count);
    let read = coding::read(Kind::H263(size), bytes, bits, head, macroblocks, levels);
    read.verdict
}
