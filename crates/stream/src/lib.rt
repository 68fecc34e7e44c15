// A raw H.261 stream, bit by bit: its pictures, at any bit, with fill of zeros between. What a bit comes to is said and proved of one bit; where no start code can end within
// the next eight, they are taken at once.
#![tactic(auto)]

ghost use Rattle.std.specs.Prelude.{◌≡◌, true, ◌+◌, ◌*◌, ◌<◌, ◌≤◌, length};
ghost use Rattle.layout.specs.Flat.{flat};
ghost use Rattle.refusals.specs.Number.{number};
ghost use Rattle.refusals.specs.Told.{numbers_of, told_verdict, verdict_on, found_or};
ghost use Rattle.bits.specs.Bits.{bits_of, bit_at};
ghost use Rattle.bits.specs.Write.{bytes_with};
ghost use Rattle.stream.specs.Stream.{bit_number, one_more, fresh_stream, window_after, starts_at, offset_of, begun_by, longer_by, stream_after, beginning, extended, kept_after, ran_from, kept_from, until_start, is_one, bits_on};
ghost use Rattle.stream.specs.Bytes.{bits_of_number, last_after, before_after, FewBits, Calm, Reaches};
ghost use Rattle.stream.specs.Filled.{among_zeros, unfilled, filled_read};
ghost use Rattle.stream.specs.Fill.{ShortFill};

use coding::Kind;
use h261_groups::Format;
use refusals::Refusal;

// What has gone by of a stream.
#[derive(Clone, Copy, PartialEq, Eq, Debug)]
pub struct Stream {
    // How many bits.
    pub place: usize,
    // The last 20 of them, as a number.
    pub window: u32,
    // Whether a picture has begun, and the byte in which its start code begins.
    pub begun: bool,
    pub offset: usize,
    // The picture's bits so far, the next start code's too; the places after its last one, and after the one before that.
    pub count: usize,
    pub last: usize,
    pub before: usize,
}

// ---- a bit

pub fn open() -> Stream
    ensures { result ≡ fresh_stream }
{
    Stream {
        place: 0,
        window: 1048575,
        begun: false,
        offset: 0,
        count: 0,
        last: 0,
        before: 0,
    }
}

fn one_more(n: usize) -> usize
    ensures { result ≡ one_more n }
{
    if n < 18446744073709551615 {
        return n + 1;
    }
    n
}

fn bit_number(bit: bool) -> u32
    ensures { result ≡ bit_number bit }
{
    if bit {
        return 1;
    }
    0
}

fn window_after(window: u32, bit: bool) -> u32
    ensures { result ≡ window_after window bit }
{
    if bit {
        return window % 524288 * 2 + 1;
    }
    window % 524288 * 2
}

fn offset_of(place: usize) -> usize
    ensures { result ≡ offset_of place }
{
    if place < 20 {
        return 0;
    }
    (place - 20) / 8
}

// Whether a picture's start code ends with this bit: then the picture before it had 19 bits less than were counted, and its last one was the one before the last.
pub fn starts(stream: Stream, bit: bool) -> bool
    ensures { result ≡ starts_at stream bit }
{
    window_after(stream.window, bit) == 16
}

fn begun_by(stream: Stream, bit: bool) -> Stream
    ensures { result ≡ begun_by stream bit }
{
    let place = one_more(stream.place);
    let window = window_after(stream.window, bit);
    let offset = offset_of(place);
    Stream {
        place,
        window,
        begun: true,
        offset,
        count: 20,
        last: 16,
        before: 0,
    }
}

fn longer_by(stream: Stream, bit: bool) -> Stream
    ensures { result ≡ longer_by stream bit }
{
    let place = one_more(stream.place);
    let window = window_after(stream.window, bit);
    let count = one_more(stream.count);
    if bit {
        return Stream {
            place,
            window,
            begun: stream.begun,
            offset: stream.offset,
            count,
            last: count,
            before: stream.last,
        };
    }
    Stream {
        place,
        window,
        begun: stream.begun,
        offset: stream.offset,
        count,
        last: stream.last,
        before: stream.before,
    }
}

fn begin(picture: &mut [u8])
    ensures { picture.new ≡ beginning picture.old }
{
    if 3 <= picture.len() {
        bits::put(picture, 0, 20, 16);
    }
}

fn extend(count: usize, bit: bool, picture: &mut [u8])
    ensures { picture.new ≡ extended count bit picture.old }
{
    if count / 8 < picture.len() {
        let value = bit_number(bit);
        bits::put(picture, count, 1, value);
    }
}

// One more bit: what has gone by then, and the picture's bits in the lent buffer, as far as it reaches.
pub fn push(stream: Stream, bit: bool, picture: &mut [u8]) -> Stream
    ensures value { result ≡ stream_after stream bit }
    ensures picture_after { picture.new ≡ kept_after stream bit picture.old }
{
    if starts(stream, bit) {
        begin(picture);
        return begun_by(stream, bit);
    }
    extend(stream.count, bit, picture);
    longer_by(stream, bit)
}

// ---- eight bits at once

// The place after the last one of some bits, or `otherwise`.
fn after_last(number: u32, width: usize, place: usize, otherwise: usize) -> usize
    requires { FewBits width number place }
    ensures { result ≡ last_after place otherwise (bits_of_number width number) }
{
    if number == 0 {
        return otherwise;
    }
    place + width - (u32::trailing_zeros(number) as usize)
}

// The place after the one before the last one of a byte: of what stands before its last one the last, else the last before the byte; where it has none, `otherwise`.
fn after_before(byte: u8, place: usize, last: usize, otherwise: usize) -> usize
    requires { place < 9223372036854775808 }
    ensures { result ≡ before_after place last otherwise (bits_of_number 8 byte) }
{
    if byte == 0 {
        return otherwise;
    }
    let zeros = u32::trailing_zeros(byte as u32) as usize;
    after_last((byte as u32) >> (zeros + 1), 7 - zeros, place, last)
}

fn longer_by_byte(stream: Stream, room: usize, byte: u8) -> Stream
    requires { (Calm stream room) × (room ≤ 1152921504606846976) }
    ensures { result ≡ ran_from stream (bits_of_number 8 byte) }
{
    let count = stream.count;
    let last = after_last(byte as u32, 8, count, stream.last);
    let before = after_before(byte, count, stream.last, stream.before);
    Stream {
        place: stream.place + 8,
        window: stream.window % 4096 * 256 + (byte as u32),
        begun: stream.begun,
        offset: stream.offset,
        count: count + 8,
        last,
        before,
    }
}

// A byte at any bit of the buffer: what stands before it is kept, and the rest of the last byte that it starts is zeroed.
fn put_byte(out: &mut [u8], at: usize, byte: u8)
    requires { at + 8 ≤ 8 * length out.old }
    ensures { out.new ≡ bytes_with out.old at (bits_of 8 byte) }
{
    let from = at / 8;
    let before = at % 8;
    let first = out[from] as u32;
    if before == 0 {
        out[from] = byte;
        return;
    }
    let kept = first >> (8 - before);
    let number = ((kept << 8) + (byte as u32)) << (8 - before);
    out[from] = ((number >> 8) % 256) as u8;
    out[from + 1] = (number % 256) as u8;
}

fn calm(stream: Stream, room: usize) -> bool
    ensures { result ≡ true → Calm stream room }
{
    if stream.window % 4096 <= 8 {
        return false;
    }
    if room <= stream.count / 8 + 1 {
        return false;
    }
    stream.place < 9223372036854775808
}

// What has gone by, and the place in the lent bytes of the next bit.
#[derive(Clone, Copy, PartialEq, Eq, Debug)]
pub struct Passed {
    pub stream: Stream,
    pub at: usize,
}

// Bytes from one of them on, while no start code can end within the next.
fn pass_bytes(stream: Stream, bytes: &[u8], from: usize, picture: &mut [u8]) -> Passed
    requires { (length bytes.now < 2305843009213693952) × (from ≤ length bytes.now) }
    ensures { Reaches bytes.now stream (from * 8) picture.old result.stream result.at picture.new }
{
    let room = picture.len().min(1152921504606846976);
    let mut next = stream;
    for i in from..bytes.len() {
        if !calm(next, room) {
            return Passed {
                stream: next,
                at: i * 8,
            };
        }
        let byte = bytes[i];
        put_byte(picture, next.count, byte);
        next = longer_by_byte(next, room, byte);
    }
    Passed {
        stream: next,
        at: bytes.len() * 8,
    }
}

// The same from any bit on, where that begins a byte.
fn pass_calm(stream: Stream, bytes: &[u8], at: usize, picture: &mut [u8]) -> Passed
    requires { (length bytes.now < 2305843009213693952) × (at ≤ 8 * length bytes.now) }
    ensures { Reaches bytes.now stream at picture.old result.stream result.at picture.new }
{
    if at % 8 == 0 {
        return pass_bytes(stream, bytes, at / 8, picture);
    }
    Passed { stream, at }
}

fn bit_at(bytes: &[u8], at: usize) -> bool
    requires { at < 8 * length bytes.now }
    ensures { result ≡ is_one (bit_at bytes.now at) }
{
    (bytes[at / 8] >> (7 - at % 8)) % 2 == 1
}

// The bits from one of them on up to that with which the next start code ends, or up to the bytes' end: what has gone by then, the place of the next bit, and the picture's
// bits in the lent buffer, as far as it reaches.
pub fn pass(stream: Stream, bytes: &[u8], at: usize, picture: &mut [u8]) -> Passed
    requires { length bytes.now < 2305843009213693952 }
    ensures stream_value { result.stream ≡ ran_from stream (until_start stream (bits_on bytes.now at)) }
    ensures at_value { result.at ≡ at + length (until_start stream (bits_on bytes.now at)) }
    ensures picture_after { picture.new ≡ kept_from stream (until_start stream (bits_on bytes.now at)) picture.old }
{
    let mut next = stream;
    let mut i = at;
    // No `for`: a turn passes one bit, or whole bytes before it.
    while i / 8 < bytes.len() {
        let run = pass_calm(next, bytes, i, picture);
        next = run.stream;
        i = run.at;
        if bytes.len() <= i / 8 {
            return Passed {
                stream: next,
                at: i,
            };
        }
        let bit = bit_at(bytes, i);
        if starts(next, bit) {
            return Passed {
                stream: next,
                at: i,
            };
        }
        next = push(next, bit, picture);
        i += 1;
    }
    Passed {
        stream: next,
        at: i,
    }
}

// ---- a picture

fn among_zeros(why: Refusal, ones: usize) -> bool
    ensures { result ≡ among_zeros (number why.reason) why.place ones }
{
    let reason = why.reason;
    let number = refusals::number_of(reason);
    if number < 3 {
        return false;
    }
    if 13 < number {
        return false;
    }
    ones <= why.place
}

// The picture again, without the zeros from where it was refused on.
fn read_unfilled(
    format: Format,
    bytes: &[u8],
    ones: usize,
    why: Refusal,
    head: &mut [u8],
    macroblocks: &mut [u8],
    levels: &mut [u8],
) -> Result<(), Refusal>
    ensures verdict { told_verdict result ≡ verdict_on (unfilled format bytes.now ones (flat head.old macroblocks.old levels.old) (numbers_of why)) }
    ensures buffers { flat head.new macroblocks.new levels.new ≡ found_or (flat head.old macroblocks.old levels.old) (unfilled format bytes.now ones (flat head.old macroblocks.old levels.old) (numbers_of why)) }
{
    if !among_zeros(why, ones) {
        return Err(why);
    }
    let kind = Kind::H261(format);
    let read = coding::read(kind, bytes, why.place, head, macroblocks, levels);
    let verdict = read.verdict;
    match verdict {
        Ok(()) => Ok(()),
        Err(_second) => Err(why),
    }
}

// A picture of `count` bits, the last one of them before `ones`, with or without fill: read with all of its bits first.
fn read_whole(
    format: Format,
    bytes: &[u8],
    count: usize,
    ones: usize,
    head: &mut [u8],
    macroblocks: &mut [u8],
    levels: &mut [u8],
) -> Result<(), Refusal>
    ensures verdict { told_verdict result ≡ verdict_on (filled_read format bytes.now count ones (flat head.old macroblocks.old levels.old)) }
    ensures buffers { flat head.new macroblocks.new levels.new ≡ found_or (flat head.old macroblocks.old levels.old) (filled_read format bytes.now count ones (flat head.old macroblocks.old levels.old)) }
{
    let most = h261_groups::limit(format).max(ones);
    let first = count.min(most);
    let kind = Kind::H261(format);
    let read = coding::read(kind, bytes, first, head, macroblocks, levels);
    let verdict = read.verdict;
    match verdict {
        Ok(()) => Ok(()),
        Err(why) => read_unfilled(format, bytes, ones, why, head, macroblocks, levels),
    }
}

// Whether one to seven zeros are left after the one zero that mostly follows a picture's last one, as EOB's does: fill up to the end of a byte.
fn ends_filled(format: Format, bytes: &[u8], count: usize, ones: usize) -> bool
    ensures { result ≡ true → ShortFill format bytes.now count ones }
{
    if h261_groups::limit(format) < count {
        return false;
    }
    if bytes.len() <= count / 8 {
        return false;
    }
    if count <= ones {
        return false;
    }
    let zeros = count - ones;
    if zeros < 2 {
        return false;
    }
    if 8 < zeros {
        return false;
    }
    bits::window(bytes, ones + 1) >> (25 - zeros) == 0
}

// A picture of `count` bits, the last one of them before `ones`, with or without fill: the verdict, and the description in the lent buffers. Most pictures have fill up to the
// end of a byte, and are read once, without it: what is whole so is refused with it, at its first bit.
pub fn read(
    format: Format,
    bytes: &[u8],
    count: usize,
    ones: usize,
    head: &mut [u8],
    macroblocks: &mut [u8],
    levels: &mut [u8],
) -> Result<(), Refusal>
    ensures verdict { told_verdict result ≡ verdict_on (filled_read format bytes.now count ones (flat head.old macroblocks.old levels.old)) }
    ensures buffers { flat head.new macroblocks.new levels.new ≡ found_or (flat head.old macroblocks.old levels.old) (filled_read format bytes.now count ones (flat head.old macroblocks.old levels.old)) }
{
    if !ends_filled(format, bytes, count, ones) {
        return read_whole(format, bytes, count, ones, head, macroblocks, levels);
    }
    let kind = Kind::H261(format);
    let read = coding::read(kind, bytes, ones + 1, head, macroblocks, levels);
    let verdict = read.verdict;
    match verdict {
        Ok(()) => Ok(()),
        Err(_first) => { read_whole(format, bytes, count, ones, head, macroblocks, levels) }
    }
}
