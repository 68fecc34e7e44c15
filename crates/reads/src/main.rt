// Says how much reading the pictures of the blocks on standard input cause: `reads SIZE` or `reads SIZE CLIP`, with SIZE sqcif, qcif or cif and CLIP from 1 to 65535.
//
// A line for each picture that was read, with the number of the block that ended it, the picture or its refusal, its bits and how many fields and codewords were read of
// them; a short last block's line, and how the clip's receiver stands at the end, as the lister has them. A picture of N bits causes at most N + 1 reads. Without a clip the
// first good block chooses it, and standard error says which; with one, another clip's blocks are refused by 23. The clip's first good block says its
// standard. The status is the lister's.
//
//     ./pagesorrel reads qcif 7 < clip.blocks
#![tactic(auto)]

use account::blocks::Met;
use account::input::Next;
use account::streams::Streams;
use account::{Ended, Failure};
use coding::Kind;
use listing::Clip;
use size::Size;
use standing::Answer;
use std::io::{Read, Write};
use std::process::ExitCode;

// What the blocks so far have led to.
#[derive(Clone, Copy)]
struct State {
    clip: Clip,
    met: Met,
}

// ---- what is said

fn say_reads<I, O: Write, E>(
    streams: &mut Streams<I, O, E>,
    n: u64,
    kind: Kind,
    answer: Answer,
    bits: usize,
    collection: &[u8],
) -> Result<(), Failure> {
    let reads = counting::reads(kind, collection, bits);
    let mut text = [0u8; 256];
    let count = counting::line(n, answer, bits, reads, &mut text);
    account::streams::put(streams, &text[..count])
}

// Where the block ended a picture, its line. A clip that ended one is known.
fn say<I, O: Write, E>(
    streams: &mut Streams<I, O, E>,
    n: u64,
    clip: Clip,
    answer: Answer,
    ending: Option<usize>,
    collection: &[u8],
) -> Result<(), Failure> {
    match (ending, clip) {
        (Some(bits), Clip::Known(receiver)) => {
            say_reads(streams, n, receiver.kind, answer, bits, collection)
        }
        _ => Ok(()),
    }
}

// ---- a block

fn whole<I, O: Write, E: Write>(
    streams: &mut Streams<I, O, E>,
    n: u64,
    size: Size,
    before: State,
    block: &[u8; 512],
    collection: &mut [u8],
    first: &mut [u8],
    second: &mut [u8],
) -> Result<State, Failure> {
    let ending = counting::ended(size, before.clip, block, collection, first, second);
    let listed = listing::list(size, before.clip, block, collection, first, second);
    account::say_chosen(streams, n, listing::chosen(before.clip, listed.next));
    say(streams, n, listed.next, listed.answer, ending, collection)?;
    Ok(State {
        clip: listed.next,
        met: account::blocks::after(before.met, listed.answer),
    })
}

fn short<I, O: Write, E>(
    streams: &mut Streams<I, O, E>,
    n: u64,
    before: State,
) -> Result<State, Failure> {
    let mut text = [0u8; 128];
    let count = listing::short(n, &mut text);
    account::streams::put(streams, &text[..count])?;
    Ok(State {
        clip: before.clip,
        met: account::blocks::short(before.met),
    })
}

// ---- from the first block to the last, as the lister goes: a crate for the two would take their state, the line of a block and each of their words, and be no plainer

fn end<I, O: Write, E>(streams: &mut Streams<I, O, E>, state: State) -> Result<Ended, Failure> {
    let mut text = [0u8; 128];
    let count = listing::end(state.clip, &mut text);
    account::streams::put(streams, &text[..count])?;
    Ok(account::blocks::end(state.met))
}

// Nothing says that the input ends, so the loop counts its turns.
fn all<I: Read, O: Write, E: Write>(
    streams: &mut Streams<I, O, E>,
    size: Size,
    clip: Clip,
    collection: &mut [u8],
    first: &mut [u8],
    second: &mut [u8],
) -> Result<Ended, Failure> {
    let mut state = State {
        clip,
        met: account::blocks::open(),
    };
    for n in 0..u64::MAX {
        let mut block = [0u8; 512];
        let filled = account::input::fill(&mut streams.stdin, &mut block);
        match account::input::next_of(filled)? {
            Next::Block => {
                state = whole(streams, n, size, state, &block, collection, first, second)?;
            }
            Next::Short => {
                state = short(streams, n, state)?;
                break;
            }
            Next::End => break,
        }
    }
    end(streams, state)
}

// The buffers have room for any size.
#[tactic(auto, using(size::proofs::Room::collection_most, size::proofs::Room::store_most))]
fn run<I: Read, O: Write, E: Write>(
    streams: &mut Streams<I, O, E>,
    size: Size,
    clip: Clip,
) -> Result<Ended, Failure> {
    let bytes = size::collection_length(size);
    let samples = size::store_length(size);
    let mut collection = [0u8; 33000];
    let mut first = [0u8; 152064];
    let mut second = [0u8; 152064];
    all(
        streams,
        size,
        clip,
        &mut collection[..bytes],
        &mut first[..samples],
        &mut second[..samples],
    )
}

// ---- the words

// How many words there are, the program's own name among them, and the two after it.
fn of_words<I: Read, O: Write, E: Write>(
    streams: &mut Streams<I, O, E>,
    count: usize,
    size: &[u8],
    clip: &[u8],
) -> Result<Ended, Failure> {
    match arguments::vault_named(count, size, clip) {
        Some(vault) => run(
            streams,
            vault.size,
            vault.clip.map_or(Clip::Unknown, Clip::Asked),
        ),
        None => Err(Failure::Misnamed),
    }
}

// Why the run ended before its input did.
fn say_failure<I, O, E: Write>(streams: &mut Streams<I, O, E>, failure: Failure) {
    match failure {
        Failure::Misnamed => {
            let _ = account::streams::say(
                streams,
                b"usage: reads sqcif|qcif|cif [CLIP] < BLOCKS, with CLIP from 1 to 65535\n",
            );
        }
        Failure::Unread(why) => {
            account::streams::fail(streams, b"reads: the input could not be read", Some(why));
        }
        Failure::Unwritten(why) => {
            account::streams::fail(streams, b"reads: a line could not be written", Some(why));
        }
    }
}

fn main(rt: HostRuntime) -> ExitCode {
    let mut streams = account::streams::over(rt.stdin(), rt.stdout(), rt.stderr());
    let mut size = [0u8; 16];
    let mut clip = [0u8; 16];
    let sizes = account::arg(&rt, 1, &mut size);
    let clips = account::arg(&rt, 2, &mut clip);
    let end = of_words(
        &mut streams,
        account::arg_count(&rt),
        &size[..sizes],
        &clip[..clips],
    );
    if let Err(failure) = end {
        say_failure(&mut streams, failure);
    }
    account::tell_over(&streams, end)
}
