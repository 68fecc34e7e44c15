// A raw H.261 stream packed: each picture reaches from its start code, at any bit, to the next one or to the stream's end.
ghost use Rattle.std.specs.Prelude.{◌≤◌, length};

use crate::recording;
use crate::recording::{Recording, Whole};
use account::streams::Streams;
use account::{Ended, Failure};
use h261_groups::Format;
use std::io::Write;
use stream::Stream;

// What has gone by of the stream, and the recording so far.
#[derive(Clone, Copy)]
pub struct H261Pack {
    pub format: Format,
    pub stream: Stream,
    pub recording: Recording,
}

pub fn open(format: Format, recording: Recording) -> H261Pack {
    H261Pack {
        format,
        stream: stream::open(),
        recording,
    }
}

// How many bits the picture has where the next start code, of 20 bits, ends with the next bit.
fn bits_before(count: usize) -> usize {
    if count < 19 {
        return 0;
    }
    count - 19
}

// The picture that has begun is whole: it has `count` bits, the last one of them before `ones`.
fn close<I, O: Write, E: Write>(
    streams: &mut Streams<I, O, E>,
    before: H261Pack,
    count: usize,
    ones: usize,
    picture: &[u8],
    first: &mut [u8],
    second: &mut [u8],
) -> Result<H261Pack, Failure> {
    let stream = before.stream;
    if !stream.begun {
        return Ok(before);
    }
    let format = before.format;
    let recording = before.recording;
    let whole = Whole::H261(format, count, ones);
    let next = recording::finish(
        streams,
        recording,
        whole,
        stream.offset,
        picture,
        first,
        second,
    )?;
    let mut pack = before;
    pack.recording = next;
    Ok(pack)
}

// A start code ends with the next bit, which is the last of its zeros: the picture before it is whole.
fn start<I, O: Write, E: Write>(
    streams: &mut Streams<I, O, E>,
    before: H261Pack,
    picture: &mut [u8],
    first: &mut [u8],
    second: &mut [u8],
) -> Result<H261Pack, Failure> {
    let stream = before.stream;
    let count = bits_before(stream.count);
    let mut pack = close(
        streams,
        before,
        count,
        stream.before,
        picture,
        first,
        second,
    )?;
    let next = stream::push(stream, false, picture);
    pack.stream = next;
    if stream.begun {
        return Ok(pack);
    }
    let recording = pack.recording;
    let begun = recording::begin(streams, recording, next.offset);
    pack.recording = begun;
    Ok(pack)
}

// What was read of the stream, from one start code to the next.
pub fn chunk<I, O: Write, E: Write>(
    streams: &mut Streams<I, O, E>,
    before: H261Pack,
    bytes: &[u8],
    picture: &mut [u8],
    first: &mut [u8],
    second: &mut [u8],
) -> Result<H261Pack, Failure>
    requires { length bytes.now ≤ 4096 }
{
    let mut pack = before;
    let mut at: usize = 0;
    // No `for`: a turn goes on to the bit after the next start code.
    while at / 8 < bytes.len() {
        let stream = pack.stream;
        let passed = stream::pass(stream, bytes, at, picture);
        let next = passed.stream;
        let there = passed.at;
        pack.stream = next;
        if bytes.len() <= there / 8 {
            return Ok(pack);
        }
        pack = start(streams, pack, picture, first, second)?;
        at = there + 1;
    }
    Ok(pack)
}

// The picture at the stream's end.
pub fn end<I, O: Write, E: Write>(
    streams: &mut Streams<I, O, E>,
    before: H261Pack,
    picture: &[u8],
    first: &mut [u8],
    second: &mut [u8],
) -> Result<Ended, Failure> {
    let stream = before.stream;
    let pack = close(
        streams,
        before,
        stream.count,
        stream.last,
        picture,
        first,
        second,
    )?;
    let recording = pack.recording;
    Ok(recording::end(streams, recording, stream.begun, stream.place / 8))
}
