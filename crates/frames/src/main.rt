// Writes the pictures of the blocks on standard input that finish in step as YUV4MPEG2: `frames SIZE` or `frames SIZE CLIP`, with SIZE sqcif, qcif or cif and CLIP from 1 to 65535.
// With the last word `timed` there is a frame for each tick: a picture stands until the next one's tick; where the receiver left step in between, it stands for one, and the rest is grey.
//
// On standard error: the lister's line for a refused or a short block, each run of blocks that led to no picture, the numbers of the pictures that are missing, and at the end
// how many pictures there were; with `timed` also how many frames are repeated and how many grey. Without a clip the first good block chooses it, and standard error says which; with one, another clip's blocks are refused by 23.
// The clip's first good block says its standard.
//
//     ./pagesorrel frames qcif 7 < clip.blocks > clip.y4m
#![tactic(auto)]

ghost use Rattle.std.specs.Prelude.{◌≡◌, length};
ghost use Rattle.io.specs.Counts.{IsPrefixLen};
ghost use Rattle.text.specs.Text.{over};
ghost use Rattle.frames.specs.Header.{header_text};
ghost use Rattle.frames.specs.Timing.{timing_text};

use account::blocks::Met;
use account::idle::Idle;
use account::input::Next;
use account::remarks::two_numbers;
use account::streams::Streams;
use account::{Ended, Failure};
use listing::{Clip, Listed};
use pace::Between;
use size::Size;
use standing::{Answer, Received, Receiver};
use std::io::{Read, Write};
use std::process::ExitCode;

// Whether there is a frame for each tick, and the frames that were written between pictures.
#[derive(Clone, Copy)]
struct Timing {
    timed: bool,
    repeated: u64,
    grey: u64,
}

// What the blocks so far have led to: the clip, what was met, the blocks that led to no picture, and the frames between pictures.
#[derive(Clone, Copy)]
struct State {
    clip: Clip,
    met: Met,
    idle: Idle,
    timing: Timing,
}

// ---- what is written

#[tactic(auto, unfolding(crate::specs::Header::header_text))]
fn header(size: Size, out: &mut [u8; 128]) -> usize
    ensures prefix_len { IsPrefixLen result out.new }
    ensures value { result ≡ length (header_text size) }
    ensures out_after { out.new ≡ over (header_text size) out.old }
{
    let width = size::width(size) as u64;
    let height = size::height(size) as u64;
    let rest = b" F30000:1001 Ip A12:11 C420jpeg\n";
    two_numbers(b"YUV4MPEG2 W", width, b" H", height, rest, out)
}

fn begin<I, O: Write, E>(streams: &mut Streams<I, O, E>, size: Size) -> Result<(), Failure> {
    let mut text = [0u8; 128];
    let count = header(size, &mut text);
    account::streams::put(streams, &text[..count])
}

fn frame<I, O: Write, E>(streams: &mut Streams<I, O, E>, samples: &[u8]) -> Result<(), Failure> {
    account::streams::put(streams, b"FRAME\n")?;
    account::streams::put(streams, samples)
}

fn frames<I, O: Write, E>(
    streams: &mut Streams<I, O, E>,
    samples: &[u8],
    count: u32,
) -> Result<(), Failure> {
    for _ in 0..count {
        frame(streams, samples)?;
    }
    Ok(())
}

// Plain grey.
#[tactic(auto, using(size::proofs::Room::store_most))]
fn grey_frames<I, O: Write, E>(
    streams: &mut Streams<I, O, E>,
    size: Size,
    count: u32,
) -> Result<(), Failure> {
    let samples = size::store_length(size);
    let grey = [128u8; 152064];
    frames(streams, &grey[..samples], count)
}

// Counts stop near the greatest number of 64 bits: not at it, as `saturating_add` would have it, since what is printed stays what it was.
fn more(n: u64, count: u32) -> u64 {
    if n < 18446744069414584320 {
        return n + count as u64;
    }
    n
}

fn fill_with<'a, I, O: Write, E>(
    streams: &mut Streams<I, O, E>,
    timing: Timing,
    receiver: Receiver,
    between: Between,
    first: &'a [u8],
    second: &'a [u8],
) -> Result<Timing, Failure> {
    let size = coding::size_of(receiver.kind);
    match between {
        Between::Repeated(count) => {
            let shown = standing::store_shown(size, receiver.last.holder, first, second);
            frames(streams, shown, count)?;
            Ok(Timing {
                repeated: more(timing.repeated, count),
                ..timing
            })
        }
        Between::Grey(count) => {
            grey_frames(streams, size, count)?;
            Ok(Timing {
                grey: more(timing.grey, count),
                ..timing
            })
        }
    }
}

// The frames between the picture before and the one that is finished, by the clip as it was before the block that finished it.
fn fill<'a, I, O: Write, E>(
    streams: &mut Streams<I, O, E>,
    timing: Timing,
    before: Clip,
    answer: Answer,
    first: &'a [u8],
    second: &'a [u8],
) -> Result<Timing, Failure> {
    match (before, answer) {
        (Clip::Known(receiver), Answer::Picture(picture, tick)) if timing.timed => {
            let between = pace::frames_between(receiver, picture, tick);
            fill_with(streams, timing, receiver, between, first, second)
        }
        _ => Ok(timing),
    }
}

// The picture that is finished.
fn show<'a, I, O: Write, E>(
    streams: &mut Streams<I, O, E>,
    listed: Listed,
    first: &'a [u8],
    second: &'a [u8],
) -> Result<(), Failure> {
    match listed.next {
        Clip::Known(receiver) => {
            let received = Received {
                answer: listed.answer,
                next: receiver,
            };
            frame(streams, standing::show(received, first, second))
        }
        _ => Ok(()),
    }
}

// ---- what is said

fn say_line<I, O, E: Write>(streams: &mut Streams<I, O, E>, n: u64, answer: Answer) {
    let mut text = [0u8; 128];
    let count = listing::line(n, answer, &mut text);
    let _ = account::streams::say(streams, &text[..count]);
}

fn say_short<I, O, E: Write>(streams: &mut Streams<I, O, E>, n: u64) {
    let mut text = [0u8; 128];
    let count = listing::short(n, &mut text);
    let _ = account::streams::say(streams, &text[..count]);
}

fn say_idle<I, O, E: Write>(streams: &mut Streams<I, O, E>, idle: Idle) {
    if idle.any {
        let mut text = [0u8; 128];
        let count = account::remarks::idle(idle.from, idle.to, &mut text);
        let _ = account::streams::say(streams, &text[..count]);
    }
}

fn say_missing<I, O, E: Write>(streams: &mut Streams<I, O, E>, from: u64, next: u64) {
    if from < next {
        let mut text = [0u8; 128];
        let count = account::remarks::missing(from, next - 1, &mut text);
        let _ = account::streams::say(streams, &text[..count]);
    }
}

fn say_rest<I, O, E: Write>(streams: &mut Streams<I, O, E>, idle: Idle) {
    if idle.any {
        let mut text = [0u8; 128];
        let count = account::remarks::rest(idle.next, &mut text);
        let _ = account::streams::say(streams, &text[..count]);
    }
}

// "9 repeated, 31 grey"
#[tactic(auto, unfolding(crate::specs::Timing::timing_text))]
fn timing_line(repeated: u64, grey: u64, out: &mut [u8; 128]) -> usize
    ensures prefix_len { IsPrefixLen result out.new }
    ensures value { result ≡ length (timing_text repeated grey) }
    ensures out_after { out.new ≡ over (timing_text repeated grey) out.old }
{
    two_numbers(b"", repeated, b" repeated, ", grey, b" grey\n", out)
}

fn say_timing<I, O, E: Write>(streams: &mut Streams<I, O, E>, timing: Timing) {
    if timing.timed {
        let mut text = [0u8; 128];
        let count = timing_line(timing.repeated, timing.grey, &mut text);
        let _ = account::streams::say(streams, &text[..count]);
    }
}

fn say_pictures<I, O, E: Write>(streams: &mut Streams<I, O, E>, pictures: u64) {
    let mut text = [0u8; 128];
    let count = text::remarks::pictures(pictures, &mut text);
    let _ = account::streams::say(streams, &text[..count]);
}

// ---- a block

// What is said of a block, and the picture that it finished.
fn follow<'a, I, O: Write, E: Write>(
    streams: &mut Streams<I, O, E>,
    n: u64,
    listed: Listed,
    idle: Idle,
    first: &'a [u8],
    second: &'a [u8],
) -> Result<(), Failure> {
    match listed.answer {
        Answer::Picture(picture, _) => {
            say_idle(streams, idle);
            say_missing(streams, idle.next, picture as u64);
            show(streams, listed, first, second)
        }
        Answer::Refused(_) => {
            say_line(streams, n, listed.answer);
            Ok(())
        }
        _ => Ok(()),
    }
}

// Frames up to the block's picture, then the picture and what is said. After a failed write nothing more is done.
fn whole<I, O: Write, E: Write>(
    streams: &mut Streams<I, O, E>,
    n: u64,
    size: Size,
    before: State,
    block: &[u8; 512],
    collection: &mut [u8],
    first: &mut [u8],
    second: &mut [u8],
) -> Result<State, Failure> {
    let listed = listing::list(size, before.clip, block, collection, first, second);
    let answer = listed.answer;
    account::say_chosen(streams, n, listing::chosen(before.clip, listed.next));
    let timing = fill(streams, before.timing, before.clip, answer, first, second)?;
    follow(streams, n, listed, before.idle, first, second)?;
    Ok(State {
        clip: listed.next,
        met: account::blocks::after(before.met, answer),
        idle: account::idle::after(before.idle, n, answer),
        timing,
    })
}

// ---- from the first block to the last

fn end<I, O, E: Write>(streams: &mut Streams<I, O, E>, state: State) -> Ended {
    let left = account::idle::drop(state.idle);
    say_idle(streams, left);
    say_rest(streams, left);
    say_pictures(streams, state.met.pictures);
    say_timing(streams, state.timing);
    account::blocks::end(state.met)
}

// Nothing says that the input ends, so the loop counts its turns.
fn all<I: Read, O: Write, E: Write>(
    streams: &mut Streams<I, O, E>,
    size: Size,
    clip: Clip,
    timed: bool,
    collection: &mut [u8],
    first: &mut [u8],
    second: &mut [u8],
) -> Result<Ended, Failure> {
    begin(streams, size)?;
    let mut state = State {
        clip,
        met: account::blocks::open(),
        idle: account::idle::open(0),
        timing: Timing {
            timed,
            repeated: 0,
            grey: 0,
        },
    };
    for n in 0..u64::MAX {
        let mut block = [0u8; 512];
        let filled = account::input::fill(&mut streams.stdin, &mut block);
        match account::input::next_of(filled)? {
            Next::Block => {
                state = whole(streams, n, size, state, &block, collection, first, second)?;
            }
            Next::Short => {
                say_short(streams, n);
                state.met = account::blocks::short(state.met);
                break;
            }
            Next::End => break,
        }
    }
    Ok(end(streams, state))
}

// The buffers have room for any size.
#[tactic(auto, using(size::proofs::Room::collection_most, size::proofs::Room::store_most))]
fn run<I: Read, O: Write, E: Write>(
    streams: &mut Streams<I, O, E>,
    size: Size,
    clip: Clip,
    timed: bool,
) -> Result<Ended, Failure> {
    let bytes = size::collection_length(size);
    let samples = size::store_length(size);
    let mut collection = [0u8; 33000];
    let mut first = [0u8; 152064];
    let mut second = [0u8; 152064];
    all(
        streams,
        size,
        clip,
        timed,
        &mut collection[..bytes],
        &mut first[..samples],
        &mut second[..samples],
    )
}

// ---- the words

// How many words there are, the program's own name among them and `timed` not, and the two after it.
fn of_words<I: Read, O: Write, E: Write>(
    streams: &mut Streams<I, O, E>,
    count: usize,
    size: &[u8],
    clip: &[u8],
    timed: bool,
) -> Result<Ended, Failure> {
    match arguments::vault_named(count, size, clip) {
        Some(vault) => run(
            streams,
            vault.size,
            vault.clip.map_or(Clip::Unknown, Clip::Asked),
            timed,
        ),
        None => Err(Failure::Misnamed),
    }
}

// The words without a last one that is `timed`.
fn of_timed<I: Read, O: Write, E: Write>(
    streams: &mut Streams<I, O, E>,
    count: usize,
    size: &[u8],
    clip: &[u8],
    last: &[u8],
) -> Result<Ended, Failure> {
    if 3 <= count && text::same(last, b"timed") {
        return of_words(streams, count - 1, size, clip, true);
    }
    of_words(streams, count, size, clip, false)
}

// Why the run ended before its input did.
fn say_failure<I, O, E: Write>(streams: &mut Streams<I, O, E>, failure: Failure) {
    match failure {
        Failure::Misnamed => {
            let _ = account::streams::say(
                streams,
                b"usage: frames sqcif|qcif|cif [CLIP] [timed] < BLOCKS > PICTURES.y4m, with CLIP from 1 to 65535\n",
            );
        }
        Failure::Unread(why) => {
            account::streams::fail(streams, b"frames: the input could not be read", Some(why));
        }
        Failure::Unwritten(why) => {
            account::streams::fail(
                streams,
                b"frames: a picture could not be written",
                Some(why),
            );
        }
    }
}

fn main(rt: HostRuntime) -> ExitCode {
    let mut streams = account::streams::over(rt.stdin(), rt.stdout(), rt.stderr());
    let mut size = [0u8; 16];
    let mut clip = [0u8; 16];
    let sizes = account::arg(&rt, 1, &mut size);
    let clips = account::arg(&rt, 2, &mut clip);
    let mut last = [0u8; 16];
    let count = account::arg_count(&rt);
    let lasts = account::arg(&rt, count.saturating_sub(1), &mut last);
    let end = of_timed(
        &mut streams,
        count,
        &size[..sizes],
        &clip[..clips],
        &last[..lasts],
    );
    if let Err(failure) = end {
        say_failure(&mut streams, failure);
    }
    account::tell_over(&streams, end)
}
