// Tests clips sent and delivered: `test_clips send` or `test_clips deliver`.
//
// A session on standard input is the kind (0 QCIF and 1 CIF of H.261, 2 sub-QCIF, 3 QCIF and 4 CIF of H.263), the clip in two bytes, the number of calls in four, of a
// sender also the number of its next picture in four, and the calls; src/send.rt and deliver.rt say how a call and its line look. Before a session every byte of the
// sender's output is 165, of the receiver's collection buffer 51, of the first store 17, of the second 34. Lines: "opened" or "refused 22", those of the calls, and after a
// receiver's calls "end COLLECTION FIRST SECOND" with the checks of the buffers. Stops at the end of the input and at a record that has no such form.
#![tactic(auto)]

use checks::{lent, part, two};
use coding::Kind;
use refusals::Refusal;
use sender::Sender;
use size::Size;
use standing::Receiver;
use std::io::{Read, Write};

mod deliver;
mod send;

#[derive(Clone, Copy)]
enum Case {
    Send,
    Deliver,
}

// Who is called.
#[derive(Clone, Copy)]
enum Party {
    Sending(Sender),
    Receiving(Receiver),
}

// Who is called next, and whether the line goes on with the checks of the buffers.
#[derive(Clone, Copy)]
struct Called {
    next: Party,
    told: bool,
}

// ---- buffers: the sender's output or the receiver's collection buffer, and two stores, with room for any size

fn size_of(party: Party) -> Size {
    match party {
        Party::Sending(sender) => {
            let kind = sender.kind;
            coding::size_of(kind)
        }
        Party::Receiving(receiver) => {
            let kind = receiver.kind;
            coding::size_of(kind)
        }
    }
}

fn buffer_length(party: Party) -> usize {
    let size = size_of(party);
    match party {
        Party::Sending(_) => size::blocks_length(size),
        Party::Receiving(_) => size::collection_length(size),
    }
}

fn before(party: Party) -> u8 {
    match party {
        Party::Sending(_) => 165,
        Party::Receiving(_) => 51,
    }
}

// " BUFFER FIRST SECOND"
fn say_checks<O: Write>(stdout: &mut O, party: Party, buffer: &[u8], first: &[u8], second: &[u8]) {
    let samples = size::store_length(size_of(party));
    let most = part(buffer_length(party), buffer);
    let firsts = part(samples, first);
    let seconds = part(samples, second);
    checks::say_check(stdout, &buffer[..most]);
    checks::say_check(stdout, &first[..firsts]);
    checks::say_check(stdout, &second[..seconds]);
}

// ---- a call

// Which buffer is lent without its last byte: 1 the sender's or the receiver's own, 2 the first store, 3 the second.
fn short_of(party: Party, start: &[u8; 3]) -> u8 {
    match party {
        Party::Sending(_) => match start[2] {
            1 => 2,
            2 => 3,
            3 => 1,
            _ => 0,
        },
        Party::Receiving(_) => start[0],
    }
}

fn lend<I: Read, O: Write>(
    stdin: &mut I,
    stdout: &mut O,
    party: Party,
    start: &[u8; 3],
    buffer: &mut [u8],
    first: &mut [u8],
    second: &mut [u8],
) -> Option<Called> {
    let samples = size::store_length(size_of(party));
    let short = short_of(party, start);
    let most = part(lent(buffer_length(party), short == 1), buffer);
    let firsts = part(lent(samples, short == 2), first);
    let seconds = part(lent(samples, short == 3), second);
    match party {
        Party::Sending(sender) => send::call(
            stdin,
            stdout,
            sender,
            two(start[0], start[1]),
            &mut buffer[..most],
            &mut first[..firsts],
            &mut second[..seconds],
        ),
        Party::Receiving(receiver) => deliver::call(
            stdin,
            stdout,
            receiver,
            two(start[1], start[2]),
            &mut buffer[..most],
            &mut first[..firsts],
            &mut second[..seconds],
        ),
    }
}

// A call, and its line.
fn next_call<I: Read, O: Write>(
    stdin: &mut I,
    stdout: &mut O,
    party: Party,
    buffer: &mut [u8],
    first: &mut [u8],
    second: &mut [u8],
) -> Option<Called> {
    let mut start = [0u8; 3];
    if !checks::fills(stdin, &mut start) {
        return None;
    }
    let called = lend(stdin, stdout, party, &start, buffer, first, second)?;
    if called.told {
        say_checks(stdout, called.next, buffer, first, second);
    }
    checks::say(stdout, b"\n");
    Some(called)
}

// ---- a session

// Whether the input has all calls.
fn calls<I: Read, O: Write>(
    stdin: &mut I,
    stdout: &mut O,
    opened: Party,
    count: usize,
    buffer: &mut [u8],
    first: &mut [u8],
    second: &mut [u8],
) -> bool {
    let mut party = opened;
    for _ in 0..count {
        let Some(called) = next_call(stdin, stdout, party, buffer, first, second) else {
            return false;
        };
        party = called.next;
    }
    true
}

fn session<I: Read, O: Write>(stdin: &mut I, stdout: &mut O, opened: Party, count: usize) -> bool {
    let mut buffer = [before(opened); 33792];
    let mut first = [17u8; 152064];
    let mut second = [34u8; 152064];
    checks::say(stdout, b"opened\n");
    if !calls(
        stdin,
        stdout,
        opened,
        count,
        &mut buffer,
        &mut first,
        &mut second,
    ) {
        return false;
    }
    match opened {
        Party::Sending(_) => {}
        Party::Receiving(_) => {
            checks::say(stdout, b"end");
            say_checks(stdout, opened, &buffer, &first, &second);
            checks::say(stdout, b"\n");
        }
    }
    true
}

fn refused<O: Write>(stdout: &mut O, why: Refusal) -> bool {
    checks::say_refusal(stdout, why);
    checks::say(stdout, b"\n");
    true
}

fn open_sender<I: Read, O: Write>(
    stdin: &mut I,
    stdout: &mut O,
    clip: u16,
    kind: Kind,
    count: usize,
) -> bool {
    let mut number = [0u8; 4];
    if !checks::fills(stdin, &mut number) {
        return false;
    }
    let next = checks::picture_of(number[0], number[1], number[2], number[3]);
    match sender::open(clip, kind) {
        Ok(sender) => session(
            stdin,
            stdout,
            Party::Sending(send::before(sender, next)),
            count,
        ),
        Err(why) => refused(stdout, why),
    }
}

fn open<I: Read, O: Write>(
    stdin: &mut I,
    stdout: &mut O,
    case: Case,
    clip: u16,
    kind: Kind,
    count: usize,
) -> bool {
    match case {
        Case::Send => open_sender(stdin, stdout, clip, kind, count),
        Case::Deliver => match standing::open(clip, kind) {
            Ok(receiver) => session(stdin, stdout, Party::Receiving(receiver), count),
            Err(why) => refused(stdout, why),
        },
    }
}

// One session, and whether to go on.
fn one<I: Read, O: Write>(stdin: &mut I, stdout: &mut O, case: Case) -> bool {
    let mut start = [0u8; 7];
    if !checks::fills(stdin, &mut start) || 4 < start[0] {
        return false;
    }
    let clip = checks::clip_of(start[1], start[2]);
    let count = checks::four(start[3], start[4], start[5], start[6]);
    open(
        stdin,
        stdout,
        case,
        clip,
        checks::kind_named(start[0]),
        count,
    )
}

// Nothing says that the input ends, so the loop counts its turns.
fn all<I: Read, O: Write>(stdin: &mut I, stdout: &mut O, case: Case) {
    for _ in 0..100000000u64 {
        if !one(stdin, stdout, case) {
            break;
        }
    }
}

fn case_named(word: &[u8]) -> Option<Case> {
    if text::same(word, b"send") {
        return Some(Case::Send);
    }
    if text::same(word, b"deliver") {
        return Some(Case::Deliver);
    }
    None
}

fn main(rt: HostRuntime) {
    let mut stdin = rt.stdin();
    let mut stdout = rt.stdout();
    let mut stderr = rt.stderr();
    let mut word = [0u8; 16];
    let count = checks::arg(&rt, 1, &mut word);
    match case_named(&word[..count]) {
        None => {
            let _ = stderr.write_all(b"usage: test_clips send|deliver < SESSIONS\n");
        }
        Some(case) => all(&mut stdin, &mut stdout, case),
    }
}
