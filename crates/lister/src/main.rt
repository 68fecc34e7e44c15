// Lists the blocks on standard input: `lister`, `lister SIZE` or `lister SIZE CLIP`, with SIZE sqcif, qcif or cif and CLIP from 1 to 65535.
//
// A line for each block, and how the clip's receiver stands at the end; docs/REFUSALS.md says what each line means. Without a size the blocks are QCIF's. Without a clip the
// first good block chooses it, and standard error says which; with one, another clip's blocks are refused by 23. The clip's first good block says its standard.
//
//     ./pagesorrel lister qcif 7 < clip.blocks
#![tactic(auto)]

use account::blocks::Met;
use account::input::Next;
use account::streams::Streams;
use account::{Ended, Failure};
use listing::Clip;
use size::Size;
use std::io::{Read, Write};
use std::process::ExitCode;

// What the blocks so far have led to.
#[derive(Clone, Copy)]
struct State {
    clip: Clip,
    met: Met,
}

// ---- a block

fn whole<I, O: Write, E: Write>(
    streams: &mut Streams<I, O, E>,
    n: u64,
    size: Size,
    before: State,
    block: &[u8; 512],
    collection: &mut [u8],
    first: &mut [u8],
    second: &mut [u8],
) -> Result<State, Failure> {
    let listed = listing::list(size, before.clip, block, collection, first, second);
    account::say_chosen(streams, n, listing::chosen(before.clip, listed.next));
    let mut text = [0u8; 128];
    let count = listing::line(n, listed.answer, &mut text);
    account::streams::put(streams, &text[..count])?;
    Ok(State {
        clip: listed.next,
        met: account::blocks::after(before.met, listed.answer),
    })
}

fn short<I, O: Write, E>(
    streams: &mut Streams<I, O, E>,
    n: u64,
    before: State,
) -> Result<State, Failure> {
    let mut text = [0u8; 128];
    let count = listing::short(n, &mut text);
    account::streams::put(streams, &text[..count])?;
    Ok(State {
        clip: before.clip,
        met: account::blocks::short(before.met),
    })
}

// ---- from the first block to the last

fn end<I, O: Write, E>(streams: &mut Streams<I, O, E>, state: State) -> Result<Ended, Failure> {
    let mut text = [0u8; 128];
    let count = listing::end(state.clip, &mut text);
    account::streams::put(streams, &text[..count])?;
    Ok(account::blocks::end(state.met))
}

// Nothing says that the input ends, so the loop counts its turns.
fn all<I: Read, O: Write, E: Write>(
    streams: &mut Streams<I, O, E>,
    size: Size,
    clip: Clip,
    collection: &mut [u8],
    first: &mut [u8],
    second: &mut [u8],
) -> Result<Ended, Failure> {
    let mut state = State {
        clip,
        met: account::blocks::open(),
    };
    for n in 0..u64::MAX {
        let mut block = [0u8; 512];
        let filled = account::input::fill(&mut streams.stdin, &mut block);
        match account::input::next_of(filled)? {
            Next::Block => {
                state = whole(streams, n, size, state, &block, collection, first, second)?;
            }
            Next::Short => {
                state = short(streams, n, state)?;
                break;
            }
            Next::End => break,
        }
    }
    end(streams, state)
}

// The buffers have room for any size.
fn run<I: Read, O: Write, E: Write>(
    streams: &mut Streams<I, O, E>,
    size: Size,
    clip: Clip,
) -> Result<Ended, Failure> {
    let bytes = size::collection_length(size);
    let samples = size::store_length(size);
    let mut collection = [0u8; 33000];
    let mut first = [0u8; 152064];
    let mut second = [0u8; 152064];
    all(
        streams,
        size,
        clip,
        &mut collection[..bytes],
        &mut first[..samples],
        &mut second[..samples],
    )
}

// ---- the words

// How many words there are, the program's own name among them, and the two after it.
fn of_words<I: Read, O: Write, E: Write>(
    streams: &mut Streams<I, O, E>,
    count: usize,
    size: &[u8],
    clip: &[u8],
) -> Result<Ended, Failure> {
    if count <= 1 {
        return run(streams, Size::Qcif, Clip::Unknown);
    }
    match arguments::vault_named(count, size, clip) {
        Some(vault) => run(
            streams,
            vault.size,
            vault.clip.map_or(Clip::Unknown, Clip::Asked),
        ),
        None => Err(Failure::Misnamed),
    }
}

// Why the run ended before its input did.
fn say_failure<I, O, E: Write>(streams: &mut Streams<I, O, E>, failure: Failure) {
    match failure {
        Failure::Misnamed => {
            let _ = account::streams::say(
                streams,
                b"usage: lister [sqcif|qcif|cif [CLIP]] < BLOCKS, with CLIP from 1 to 65535\n",
            );
        }
        Failure::Unread(why) => {
            account::streams::fail(streams, b"lister: the input could not be read", Some(why));
        }
        Failure::Unwritten(why) => {
            account::streams::fail(
                streams,
                b"lister: the listing could not be written",
                Some(why),
            );
        }
    }
}

fn main(rt: HostRuntime) -> ExitCode {
    let mut streams = account::streams::over(rt.stdin(), rt.stdout(), rt.stderr());
    let mut size = [0u8; 16];
    let mut clip = [0u8; 16];
    let sizes = account::arg(&rt, 1, &mut size);
    let clips = account::arg(&rt, 2, &mut clip);
    let end = of_words(
        &mut streams,
        account::arg_count(&rt),
        &size[..sizes],
        &clip[..clips],
    );
    if let Err(failure) = end {
        say_failure(&mut streams, failure);
    }
    account::tell_over(&streams, end)
}
