// Packs the raw stream on standard input into blocks: `pack KIND CLIP`, with KIND qcif or cif for H.261, h263-sqcif, h263-qcif or h263-cif for H.263, and CLIP from 1 to 65535.
//
// Each picture reaches from its start code, at any bit in H.261 and at a byte in H.263, to the next one, to an end code of H.263 or to the stream's end. A refused picture is a
// line on standard error, and the next one takes its number; what stands before the first picture is a line too, and at the end how many pictures were recorded. Where standard
// error is a terminal, a line there tells how far it has come.
//
//     ./pagesorrel pack qcif 7 < clips/testsrc2-qcif-fine.h261 > clip.blocks
#![tactic(auto)]

ghost use Rattle.std.specs.Prelude.{◌≤◌, length};

use crate::h261::H261Pack;
use crate::h263::H263Pack;
use account::streams::Streams;
use account::{Ended, Failure};
use coding::Kind;
use sender::Sender;
use std::io::{IsTerminal, Read, Write};
use std::process::ExitCode;

mod h261;
mod h263;
mod recording;

#[derive(Clone, Copy)]
enum Pack {
    H261(H261Pack),
    H263(H263Pack),
}

// ---- the stream, by its standard

fn open(sender: Sender, terminal: bool) -> Pack {
    let kind = sender.kind;
    let recording = recording::open(sender, terminal);
    match kind {
        Kind::H261(format) => Pack::H261(h261::open(format, recording)),
        Kind::H263(size) => Pack::H263(h263::open(size, recording)),
    }
}

// How many of a picture's bytes matter.
fn room(kind: Kind) -> usize
    ensures { result ≤ 32776 }
{
    match kind {
        Kind::H261(format) => h261_groups::output_length(format),
        Kind::H263(size) => h263_stream::room(size),
    }
}

fn chunk<I, O: Write, E: Write>(
    streams: &mut Streams<I, O, E>,
    pack: Pack,
    bytes: &[u8],
    picture: &mut [u8],
    first: &mut [u8],
    second: &mut [u8],
) -> Result<Pack, Failure>
    requires { length bytes.now ≤ 4096 }
{
    match pack {
        Pack::H261(before) => {
            let next = h261::chunk(streams, before, bytes, picture, first, second)?;
            Ok(Pack::H261(next))
        }
        Pack::H263(before) => {
            let next = h263::chunk(streams, before, bytes, picture, first, second)?;
            Ok(Pack::H263(next))
        }
    }
}

fn end<I, O: Write, E: Write>(
    streams: &mut Streams<I, O, E>,
    pack: Pack,
    picture: &[u8],
    first: &mut [u8],
    second: &mut [u8],
) -> Result<Ended, Failure> {
    match pack {
        Pack::H261(before) => h261::end(streams, before, picture, first, second),
        Pack::H263(before) => h263::end(streams, before, picture, first, second),
    }
}

// ---- from its beginning to its end

// The stream, and the picture at its end. What came before a read that failed is packed. Nothing says that the input ends, so the loop counts its turns.
fn all<I: Read, O: Write, E: Write>(
    streams: &mut Streams<I, O, E>,
    opened: Pack,
    picture: &mut [u8],
    first: &mut [u8],
    second: &mut [u8],
) -> Result<Ended, Failure> {
    let mut pack = opened;
    for _ in 0..u64::MAX {
        let mut input = [0u8; 4096];
        let filled = account::input::fill(&mut streams.stdin, &mut input);
        pack = chunk(
            streams,
            pack,
            &input[..filled.count],
            picture,
            first,
            second,
        )?;
        if let Some(why) = filled.failure {
            return Err(Failure::Unread(why));
        }
        if filled.count < input.len() {
            break;
        }
    }
    end(streams, pack, picture, first, second)
}

// The buffers that last as long as the stream have room for any size.
fn record<I: Read, O: Write, E: Write>(
    streams: &mut Streams<I, O, E>,
    sender: Sender,
    terminal: bool,
) -> Result<Ended, Failure> {
    let kind = sender.kind;
    let size = coding::size_of(kind);
    let bytes = room(kind);
    let samples = size::store_length(size);
    let mut picture = [0u8; 32776];
    let mut first = [0u8; 152064];
    let mut second = [0u8; 152064];
    all(
        streams,
        open(sender, terminal),
        &mut picture[..bytes],
        &mut first[..samples],
        &mut second[..samples],
    )
}

// ---- the words

fn begin<I: Read, O: Write, E: Write>(
    streams: &mut Streams<I, O, E>,
    kind: Kind,
    clip: u16,
    terminal: bool,
) -> Result<Ended, Failure> {
    match sender::open(clip, kind) {
        Ok(sender) => record(streams, sender, terminal),
        Err(_) => Err(Failure::Misnamed),
    }
}

fn of_words<I: Read, O: Write, E: Write>(
    streams: &mut Streams<I, O, E>,
    count: usize,
    kind: &[u8],
    clip: &[u8],
    terminal: bool,
) -> Result<Ended, Failure> {
    if count != 3 {
        return Err(Failure::Misnamed);
    }
    match (arguments::kind_named(kind), arguments::clip_named(clip)) {
        (Some(named), Some(number)) => begin(streams, named, number, terminal),
        _ => Err(Failure::Misnamed),
    }
}

// Why the stream was not packed to its end.
fn say_failure<I, O, E: Write>(streams: &mut Streams<I, O, E>, terminal: bool, failure: Failure) {
    match failure {
        Failure::Misnamed => {
            let _ = account::streams::say(
                streams,
                b"usage: pack qcif|cif|h263-sqcif|h263-qcif|h263-cif CLIP < STREAM > BLOCKS, with CLIP from 1 to 65535\n",
            );
        }
        Failure::Unread(why) => {
            let what = b"pack: the stream could not be read";
            let _ = recording::clear(streams, terminal);
            account::streams::fail(streams, what, Some(why));
        }
        // The reason told is that of the last write that failed, which may be the one that makes room for the line.
        Failure::Unwritten(why) => {
            let what = b"pack: a picture's blocks could not be written";
            let last = recording::clear(streams, terminal).err().unwrap_or(why);
            account::streams::fail(streams, what, Some(last));
        }
    }
}

fn main(rt: HostRuntime) -> ExitCode {
    let mut streams = account::streams::over(rt.stdin(), rt.stdout(), rt.stderr());
    let mut kind = [0u8; 16];
    let mut clip = [0u8; 16];
    let kinds = account::arg(&rt, 1, &mut kind);
    let clips = account::arg(&rt, 2, &mut clip);
    let terminal = rt.stderr().is_terminal();
    let end = of_words(
        &mut streams,
        account::arg_count(&rt),
        &kind[..kinds],
        &clip[..clips],
        terminal,
    );
    if let Err(failure) = end {
        say_failure(&mut streams, terminal, failure);
    }
    account::tell_over(&streams, end)
}
