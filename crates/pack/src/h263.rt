// A raw H.263 stream packed: each picture reaches from its start code, at a byte, to the next one or an end code, or to the stream's end.
use crate::recording;
use crate::recording::{Recording, Whole};
use account::streams::Streams;
use account::{Ended, Failure};
use h263_stream::Stream;
use size::Size;
use std::io::Write;

// What has gone by of the stream, and the recording so far. h261.rt goes by bits and by start codes alone: a trait for the two streams would have a method for each step that differs, and be no plainer.
#[derive(Clone, Copy)]
pub struct H263Pack {
    pub size: Size,
    pub stream: Stream,
    pub recording: Recording,
}

pub fn open(size: Size, recording: Recording) -> H263Pack {
    H263Pack {
        size,
        stream: h263_stream::open(),
        recording,
    }
}

// How many bytes the picture has where the next code is completed by the next byte, its third.
fn bytes_before(count: usize) -> usize {
    if count < 2 {
        return 0;
    }
    count - 2
}

// The picture that is open, if one is, is whole: it has `count` bytes.
fn close<I, O: Write, E: Write>(
    streams: &mut Streams<I, O, E>,
    before: H263Pack,
    count: usize,
    picture: &[u8],
    first: &mut [u8],
    second: &mut [u8],
) -> Result<H263Pack, Failure> {
    let stream = before.stream;
    if !stream.ongoing {
        return Ok(before);
    }
    let size = before.size;
    let recording = before.recording;
    let whole = Whole::H263(size, count);
    let next = recording::finish(
        streams,
        recording,
        whole,
        stream.offset,
        picture,
        first,
        second,
    )?;
    let mut pack = before;
    pack.recording = next;
    Ok(pack)
}

// The next byte completes a code: the picture before it is whole.
fn complete<I, O: Write, E: Write>(
    streams: &mut Streams<I, O, E>,
    before: H263Pack,
    byte: u8,
    picture: &mut [u8],
    first: &mut [u8],
    second: &mut [u8],
) -> Result<H263Pack, Failure> {
    let stream = before.stream;
    let count = bytes_before(stream.count);
    let mut pack = close(streams, before, count, picture, first, second)?;
    let next = h263_stream::push(stream, byte, picture);
    pack.stream = next;
    if stream.begun {
        return Ok(pack);
    }
    if next.begun {
        let recording = pack.recording;
        let begun = recording::begin(streams, recording, next.offset);
        pack.recording = begun;
    }
    Ok(pack)
}

// What was read of the stream, from one code to the next.
pub fn chunk<I, O: Write, E: Write>(
    streams: &mut Streams<I, O, E>,
    before: H263Pack,
    bytes: &[u8],
    picture: &mut [u8],
    first: &mut [u8],
    second: &mut [u8],
) -> Result<H263Pack, Failure> {
    let mut pack = before;
    let mut at: usize = 0;
    // No `for`: a turn goes on to the byte after the next code.
    while at < bytes.len() {
        let stream = pack.stream;
        let passed = h263_stream::pass(stream, bytes, at, picture);
        let next = passed.stream;
        let there = passed.at;
        pack.stream = next;
        if bytes.len() <= there {
            return Ok(pack);
        }
        pack = complete(streams, pack, bytes[there], picture, first, second)?;
        at = there + 1;
    }
    Ok(pack)
}

// The picture at the stream's end.
pub fn end<I, O: Write, E: Write>(
    streams: &mut Streams<I, O, E>,
    before: H263Pack,
    picture: &[u8],
    first: &mut [u8],
    second: &mut [u8],
) -> Result<Ended, Failure> {
    let stream = before.stream;
    let pack = close(streams, before, stream.count, picture, first, second)?;
    let recording = pack.recording;
    Ok(recording::end(streams, recording, stream.begun, stream.place))
}
