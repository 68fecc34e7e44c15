// The pictures of a stream recorded as a clip, and what is said of them: the same for both standards.
ghost use Rattle.std.specs.Prelude.{◌^◌, ◌<◌};
ghost use Rattle.coding.specs.Described.{RoomIn};

use account::streams::Streams;
use account::{Ended, Failure};
use coding::Kind;
use h261_groups::Format;
use refusals::Refusal;
use sender::Sender;
use size::Size;
use std::io;
use std::io::{ErrorKind, Write};

// The sender so far; whether something was cut; whether a terminal shows how far it has come.
#[derive(Clone, Copy)]
pub struct Recording {
    pub sender: Sender,
    pub cut: bool,
    pub terminal: bool,
}

// A picture that is whole: of H.261 so many bits, the last one of them before a place; of H.263 so many bytes.
#[derive(Clone, Copy)]
pub enum Whole {
    H261(Format, usize, usize),
    H263(Size, usize),
}

pub fn open(sender: Sender, terminal: bool) -> Recording {
    Recording {
        sender,
        cut: false,
        terminal,
    }
}

// ---- what is said

// The line that a terminal shows last makes room for another.
pub fn clear<I, O, E: Write>(streams: &mut Streams<I, O, E>, terminal: bool) -> io::Result<()> {
    if terminal {
        return account::streams::say(streams, b"\r\x1b[K");
    }
    Ok(())
}

fn say_progress<I, O, E: Write>(
    streams: &mut Streams<I, O, E>,
    terminal: bool,
    pictures: u32,
    offset: usize,
) {
    if terminal {
        let mut text = [0u8; 128];
        let count = text::remarks::progress(pictures as u64, offset as u64, &mut text);
        let _ = account::streams::say(streams, &text[..count]);
    }
}

// The last such line stays.
fn end_progress<I, O, E: Write>(streams: &mut Streams<I, O, E>, terminal: bool) {
    if terminal {
        let _ = account::streams::say(streams, b"\n");
    }
}

fn say_refused<I, O, E: Write>(
    streams: &mut Streams<I, O, E>,
    terminal: bool,
    offset: usize,
    why: Refusal,
) {
    let _ = clear(streams, terminal);
    let mut text = [0u8; 128];
    let count = text::remarks::refused(offset as u64, why, &mut text);
    let _ = account::streams::say(streams, &text[..count]);
}

// What stands before the first picture.
fn say_before<I, O, E: Write>(streams: &mut Streams<I, O, E>, terminal: bool, bytes: usize) {
    let _ = clear(streams, terminal);
    let mut text = [0u8; 128];
    let count = account::remarks::before(bytes as u64, &mut text);
    let _ = account::streams::say(streams, &text[..count]);
}

fn say_nothing<I, O, E: Write>(streams: &mut Streams<I, O, E>, bytes: usize) {
    let mut text = [0u8; 128];
    let count = account::remarks::nothing(bytes as u64, &mut text);
    let _ = account::streams::say(streams, &text[..count]);
}

fn say_pictures<I, O, E: Write>(streams: &mut Streams<I, O, E>, pictures: u32) {
    let mut text = [0u8; 128];
    let count = text::remarks::pictures(pictures as u64, &mut text);
    let _ = account::streams::say(streams, &text[..count]);
}

// ---- a picture

// One that isn't recorded is cut.
fn refused<I, O, E: Write>(
    streams: &mut Streams<I, O, E>,
    before: Recording,
    offset: usize,
    why: Refusal,
) -> Recording {
    say_refused(streams, before.terminal, offset, why);
    let mut recording = before;
    recording.cut = true;
    recording
}

// The first blocks of `out`. It has room for all that the sender writes, so the tests never fail.
fn put_blocks<I, O: Write, E>(
    streams: &mut Streams<I, O, E>,
    blocks: usize,
    out: &[u8],
) -> Result<(), Failure> {
    if blocks <= 66 {
        let end = 512 * blocks;
        if end <= out.len() {
            return account::streams::put(streams, &out[..end]);
        }
    }
    Err(Failure::Unwritten(ErrorKind::WriteZero.into()))
}

// A description goes under the next number.
fn send<I, O: Write, E: Write>(
    streams: &mut Streams<I, O, E>,
    before: Recording,
    offset: usize,
    head: &[u8],
    macroblocks: &[u8],
    levels: &[u8],
    out: &mut [u8],
    first: &mut [u8],
    second: &mut [u8],
) -> Result<Recording, Failure> {
    let sent = sender::send(before.sender, head, macroblocks, levels, out, first, second);
    let next = sent.next;
    let recording = Recording {
        sender: next,
        ..before
    };
    match sent.answer {
        Ok(blocks) => {
            put_blocks(streams, blocks, out)?;
            say_progress(streams, recording.terminal, next.picture, offset);
            Ok(recording)
        }
        Err(why) => Ok(refused(streams, recording, offset, why)),
    }
}

fn read(
    whole: Whole,
    picture: &[u8],
    head: &mut [u8],
    macroblocks: &mut [u8],
    levels: &mut [u8],
) -> Result<(), Refusal> {
    match whole {
        Whole::H261(format, count, ones) => {
            stream::read(format, picture, count, ones, head, macroblocks, levels)
        }
        Whole::H263(size, count) => {
            h263_stream::read(size, picture, count, head, macroblocks, levels)
        }
    }
}

// It is read, and its description sent.
fn finish_in<I, O: Write, E: Write>(
    streams: &mut Streams<I, O, E>,
    recording: Recording,
    whole: Whole,
    offset: usize,
    picture: &[u8],
    head: &mut [u8],
    macroblocks: &mut [u8],
    levels: &mut [u8],
    out: &mut [u8],
    first: &mut [u8],
    second: &mut [u8],
) -> Result<Recording, Failure> {
    match read(whole, picture, head, macroblocks, levels) {
        Ok(()) => send(
            streams,
            recording,
            offset,
            head,
            macroblocks,
            levels,
            out,
            first,
            second,
        ),
        Err(why) => Ok(refused(streams, recording, offset, why)),
    }
}

// ---- scratch by size: a picture clears no more than its own size needs

// Scratch of these lengths, which have room for the kind.
fn finish_with<
    I,
    O: Write,
    E: Write,
    const HEAD: usize,
    const MACROBLOCKS: usize,
    const LEVELS: usize,
    const OUT: usize,
>(
    streams: &mut Streams<I, O, E>,
    recording: Recording,
    kind: Kind,
    whole: Whole,
    offset: usize,
    picture: &[u8],
    first: &mut [u8],
    second: &mut [u8],
) -> Result<Recording, Failure>
    requires room { RoomIn HEAD MACROBLOCKS LEVELS kind }
    // An array of a parameter's length has to have a size.
    requires sizes { (HEAD < 2 ^ 20) × (MACROBLOCKS < 2 ^ 20) × (LEVELS < 2 ^ 20) × (OUT < 2 ^ 20) }
{
    let mut head = [0u8; HEAD];
    let mut macroblocks = [0u8; MACROBLOCKS];
    let mut levels = [0u8; LEVELS];
    let mut out = [0u8; OUT];
    let heads = coding::head_length(kind);
    let fields = coding::macroblocks_length(kind);
    let coefficients = coding::levels_length(kind);
    finish_in(
        streams,
        recording,
        whole,
        offset,
        picture,
        &mut head[..heads],
        &mut macroblocks[..fields],
        &mut levels[..coefficients],
        &mut out,
        first,
        second,
    )
}

// A picture that begins at a byte of the stream, and stands in `picture`. After a failed write nothing more is done.
pub fn finish<I, O: Write, E: Write>(
    streams: &mut Streams<I, O, E>,
    recording: Recording,
    whole: Whole,
    offset: usize,
    picture: &[u8],
    first: &mut [u8],
    second: &mut [u8],
) -> Result<Recording, Failure> {
    let kind = recording.sender.kind;
    match coding::size_of(kind) {
        Size::SubQcif | Size::Qcif => finish_with::<I, O, E, 14, 396, 38016, 8704>(
            streams, recording, kind, whole, offset, picture, first, second,
        ),
        Size::Cif => finish_with::<I, O, E, 23, 1584, 152064, 33792>(
            streams, recording, kind, whole, offset, picture, first, second,
        ),
    }
}

// The first picture has begun: bytes before it are no picture's.
pub fn begin<I, O, E: Write>(
    streams: &mut Streams<I, O, E>,
    before: Recording,
    offset: usize,
) -> Recording {
    if 0 < offset {
        say_before(streams, before.terminal, offset);
        let mut recording = before;
        recording.cut = true;
        return recording;
    }
    before
}

// ---- the end

// A stream of so many bytes, in which a picture has begun or none has.
pub fn end<I, O, E: Write>(
    streams: &mut Streams<I, O, E>,
    recording: Recording,
    begun: bool,
    bytes: usize,
) -> Ended {
    if !begun {
        say_nothing(streams, bytes);
        return Ended {
            cut: false,
            count: 0,
        };
    }
    let sender = recording.sender;
    end_progress(streams, recording.terminal);
    say_pictures(streams, sender.picture);
    Ended {
        cut: recording.cut,
        count: sender.picture as u64,
    }
}
