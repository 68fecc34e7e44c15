// Replays the recording of a raw line on standard input: writes its data bits, mended, as a raw H.261 stream. It takes no words.
//
// On standard error it says where the frames lock, which of them are not mended and whether the last is cut, each by the place of its first bit, and how many data bits there
// were; or `refused 44`, where nothing locks. A capture of any length goes through two buffers: its frames are those of `capture::replay`, by the same lock and the same step.
//
//     ./pagesorrel replay < clips/testsrc2-qcif-coarse.line > stream.h261
#![tactic(auto)]

ghost use Rattle.std.specs.Prelude.{◌≡◌, ◌+◌, ◌*◌, ◌≤◌, ◌<◌, length, IfOk};
ghost use Rattle.bch.specs.Frame.{byte_steps};

use account::input::Filled;
use account::streams::Streams;
use account::{Ended, Failure};
use capture::Came;
use std::io::{Read, Write};
use std::process::ExitCode;

#[derive(Clone, Copy)]
struct State {
    // The capture's bits before those of the buffer; the buffer's bytes; its next bit.
    gone: u64,
    bytes: usize,
    at: usize,
    // The data bits that have been written, and those that wait.
    given: u64,
    waiting: usize,
    // Whether the frames have locked, and whether one was not mended.
    locked: bool,
    cut: bool,
}

// Bits are counted up to the largest number.
fn plus(a: u64, n: usize) -> u64 {
    a.saturating_add(n as u64)
}

fn say<I, O, E: Write>(streams: &mut Streams<I, O, E>, words: &[u8], number: u64) {
    let _ = account::streams::say(streams, words);
    let _ = account::streams::say_number(streams, number);
    let _ = account::streams::say(streams, b"\n");
}

// ---- the data bits

// The whole bytes are written, and the bits of a started one go to the front.
fn flush<I, O: Write, E>(
    streams: &mut Streams<I, O, E>,
    out: &mut [u8],
    waiting: usize,
) -> Result<(), Failure>
    requires { waiting < 8 * length out.old }
{
    let bytes = waiting / 8;
    account::streams::put(streams, &out[..bytes])?;
    out[0] = out[bytes];
    Ok(())
}

// Room for the data bits of another frame.
fn roomy<I, O: Write, E>(
    streams: &mut Streams<I, O, E>,
    before: State,
    out: &mut [u8; 65536],
) -> Result<State, Failure>
    requires { before.waiting ≤ 524280 }
    ensures { IfOk result (λ state. (state.waiting ≤ 523788) × (state.at ≡ before.at)) }
{
    let waiting = before.waiting;
    if waiting <= 523788 {
        return Ok(before);
    }
    flush(streams, out, waiting)?;
    Ok(State {
        given: plus(before.given, waiting - waiting % 8),
        waiting: waiting % 8,
        ..before
    })
}

// All that wait, the last started byte too.
fn finish<I, O: Write, E>(
    streams: &mut Streams<I, O, E>,
    waiting: usize,
    out: &[u8],
) -> Result<(), Failure>
    requires { (waiting ≤ 524280) × (length out.now ≡ 65536) }
{
    let bytes = (waiting + 7) / 8;
    account::streams::put(streams, &out[..bytes])
}

// ---- frames

fn frame<I, O, E: Write>(
    streams: &mut Streams<I, O, E>,
    steps: &[u32; 256],
    input: &[u8; 65536],
    before: State,
    out: &mut [u8; 65536],
) -> State
    requires { (steps.now ≡ byte_steps) × (before.at ≤ 523776) × (before.waiting ≤ 523788) }
    ensures { (result.waiting ≤ 524280) × (result.at ≡ before.at + 512) }
{
    let at = before.at;
    let waiting = before.waiting;
    let came = capture::step(steps, input, at, out, waiting);
    let mut state = before;
    state.at = at + 512;
    match came {
        Came::Data => {
            state.waiting = waiting + 492;
            state
        }
        Came::Fill => state,
        Came::Unmended => {
            say(streams, b"unmended ", plus(before.gone, at));
            state.cut = true;
            state
        }
    }
}

// The whole frames of the buffer's `count` bits, as long as what is written is taken.
fn frames<I, O: Write, E: Write>(
    streams: &mut Streams<I, O, E>,
    steps: &[u32; 256],
    input: &[u8; 65536],
    count: usize,
    before: State,
    out: &mut [u8; 65536],
) -> Result<State, Failure>
    requires { (steps.now ≡ byte_steps) × (count ≤ 524288) × (before.waiting ≤ 524280) }
    ensures { IfOk result (λ state. state.waiting ≤ 524280) }
{
    let mut state = before;
    // the place of the next frame is the state's, which goes on beyond the loop: no index is counted beside it
    while state.at < count {
        if count - state.at < 512 {
            return Ok(state);
        }
        let ready = roomy(streams, state, out)?;
        state = frame(streams, steps, input, ready, out);
    }
    Ok(state)
}

// ---- lock

// Where nothing locks yet, what can still be the first of 24 framing bits is looked at again once more is there.
fn search<I, O, E: Write>(
    streams: &mut Streams<I, O, E>,
    input: &[u8; 65536],
    count: usize,
    before: State,
) -> State
    requires { count ≤ 524288 }
    ensures { result.waiting ≡ before.waiting }
{
    let at = before.at;
    let mut state = before;
    let found = capture::lock(input, count, at);
    match found {
        Some(place) => {
            say(streams, b"lock ", plus(before.gone, place));
            state.locked = true;
            state.at = place;
            state
        }
        None => {
            if 11776 <= count {
                let first = count - 11776;
                if at < first {
                    state.at = first;
                }
            }
            state
        }
    }
}

// ---- the capture

// What the input has, behind the bytes that are there.
fn fill<I: Read, O, E>(streams: &mut Streams<I, O, E>, input: &mut [u8], bytes: usize) -> Filled {
    if input.len() < bytes {
        return Filled {
            count: 0,
            failure: None,
        };
    }
    account::input::fill(&mut streams.stdin, &mut input[bytes..])
}

// The bytes that have gone by make room.
fn dropped(before: State, input: &mut [u8; 65536]) -> State
    ensures { result.waiting ≡ before.waiting }
{
    let from = before.at / 8;
    let bytes = before.bytes;
    let mut state = before;
    if from <= bytes && bytes <= 65536 {
        input.copy_within(from..bytes, 0);
        state.gone = plus(before.gone, 8 * from);
        state.bytes = bytes - from;
        state.at = before.at % 8;
    }
    state
}

fn located<I, O, E: Write>(
    streams: &mut Streams<I, O, E>,
    input: &[u8; 65536],
    count: usize,
    before: State,
) -> State
    requires { count ≤ 524288 }
    ensures { result.waiting ≡ before.waiting }
{
    if before.locked {
        return before;
    }
    search(streams, input, count, before)
}

fn replayed<I, O: Write, E: Write>(
    streams: &mut Streams<I, O, E>,
    steps: &[u32; 256],
    input: &[u8; 65536],
    count: usize,
    before: State,
    out: &mut [u8; 65536],
) -> Result<State, Failure>
    requires { (steps.now ≡ byte_steps) × (count ≤ 524288) × (before.waiting ≤ 524280) }
    ensures { IfOk result (λ state. state.waiting ≤ 524280) }
{
    let state = located(streams, input, count, before);
    if state.locked {
        return frames(streams, steps, input, count, state, out);
    }
    Ok(state)
}

// A buffer of the capture. What came before a read that failed is replayed, and the read is what is told. The tests of the bytes never fail.
fn turn<I: Read, O: Write, E: Write>(
    streams: &mut Streams<I, O, E>,
    steps: &[u32; 256],
    input: &mut [u8; 65536],
    before: State,
    out: &mut [u8; 65536],
) -> Result<State, Failure>
    requires { (steps.now ≡ byte_steps) × (before.waiting ≤ 524280) }
    ensures { IfOk result (λ state. state.waiting ≤ 524280) }
{
    let mut state = dropped(before, input);
    let had = state.bytes;
    let filled = fill(streams, input, had);
    let got = filled.count;
    if 65536 < had {
        return Ok(state);
    }
    if 65536 - had < got {
        return Ok(state);
    }
    state.bytes = had + got;
    let after = replayed(streams, steps, input, 8 * (had + got), state, out);
    match filled.failure {
        Some(why) => Err(Failure::Unread(why)),
        None => after,
    }
}

// ---- the end

// The last frame, where it is cut.
fn say_cut<I, O, E: Write>(streams: &mut Streams<I, O, E>, state: State) -> bool {
    if state.bytes <= 65536 {
        if state.at < 8 * state.bytes {
            say(streams, b"cut ", plus(state.gone, state.at));
            return true;
        }
    }
    state.cut
}

// What came of it all: the data bits that wait are written, and all are counted.
fn close<I, O: Write, E: Write>(
    streams: &mut Streams<I, O, E>,
    state: State,
    out: &[u8; 65536],
) -> Result<Ended, Failure>
    requires { state.waiting ≤ 524280 }
{
    if !state.locked {
        let _ = account::streams::say(streams, b"refused 44\n");
        return Ok(Ended {
            cut: false,
            count: 0,
        });
    }
    let cut = say_cut(streams, state);
    let waiting = state.waiting;
    finish(streams, waiting, out)?;
    let data = plus(state.given, waiting);
    say(streams, b"data ", data);
    Ok(Ended { cut, count: data })
}

// There is more where the input filled the buffer. Nothing says that the input ends, so the loop counts its turns.
fn all<I: Read, O: Write, E: Write>(
    streams: &mut Streams<I, O, E>,
    steps: &[u32; 256],
    input: &mut [u8; 65536],
    out: &mut [u8; 65536],
) -> Result<State, Failure>
    requires { steps.now ≡ byte_steps }
    ensures { IfOk result (λ state. state.waiting ≤ 524280) }
{
    let mut state = State {
        gone: 0,
        bytes: 0,
        at: 0,
        given: 0,
        waiting: 0,
        locked: false,
        cut: false,
    };
    for _ in 0..u64::MAX {
        state = turn(streams, steps, input, state, out)?;
        if state.bytes < input.len() {
            break;
        }
    }
    Ok(state)
}

fn run<I: Read, O: Write, E: Write>(streams: &mut Streams<I, O, E>) -> Result<Ended, Failure> {
    let steps = bch::byte_steps();
    let mut input = [0u8; 65536];
    let mut out = [0u8; 65536];
    let state = all(streams, &steps, &mut input, &mut out)?;
    close(streams, state, &out)
}

fn of_words<I: Read, O: Write, E: Write>(
    streams: &mut Streams<I, O, E>,
    count: usize,
) -> Result<Ended, Failure> {
    if count <= 1 {
        return run(streams);
    }
    Err(Failure::Misnamed)
}

// Why the run ended before the recording did.
fn say_failure<I, O, E: Write>(streams: &mut Streams<I, O, E>, failure: Failure) {
    match failure {
        Failure::Misnamed => {
            let _ = account::streams::say(streams, b"usage: replay < CAPTURE > STREAM.h261\n");
        }
        Failure::Unread(why) => {
            account::streams::fail(
                streams,
                b"replay: the recording could not be read",
                Some(why),
            );
        }
        Failure::Unwritten(why) => {
            account::streams::fail(streams, b"replay: the data could not be written", Some(why));
        }
    }
}

fn main(rt: HostRuntime) -> ExitCode {
    let mut streams = account::streams::over(rt.stdin(), rt.stdout(), rt.stderr());
    let end = of_words(&mut streams, account::arg_count(&rt));
    if let Err(failure) = end {
        say_failure(&mut streams, failure);
    }
    account::tell_over(&streams, end)
}
