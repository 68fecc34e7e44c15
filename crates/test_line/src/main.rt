// Tests `capture::replay` on lent captures of any number of bits.
//
// A record on standard input is N (4 bytes, high byte first), which buffer is lent without its last entry (1 byte: 0 none, 1 the output, 2 the list of places), the slice's
// length (2 bytes, at most 4096), and the slice. Every byte of the output is 165 before, and every place 7. The answer, `replayed LOCK BITS PLACES` or `refused NUMBER`, goes
// to standard output with the check of 4096 bytes of output and 65 places. A short last record is ignored.
#![tactic(auto)]

ghost use Rattle.std.specs.Prelude.{◌≤◌, length};

use capture::Replayed;
use refusals::Refusal;
use std::io::{Read, Write};

fn say_places<O: Write>(stdout: &mut O, places: &[u64]) {
    for &place in places {
        checks::say_number(stdout, place);
    }
}

fn wide(n: usize) -> u64 {
    n as u64
}

fn say_answer<O: Write>(stdout: &mut O, answer: Result<Replayed, Refusal>) {
    match answer {
        Ok(Replayed { lock, bits, places }) => {
            checks::say(stdout, b"replayed");
            checks::say_number(stdout, wide(lock));
            checks::say_number(stdout, wide(bits));
            checks::say_number(stdout, wide(places));
        }
        Err(why) => checks::say_refusal(stdout, why),
    }
}

// The answer, and both buffers afterwards, of which parts are lent.
fn answered<O: Write>(
    stdout: &mut O,
    capture: &[u8],
    count: usize,
    room: usize,
    listed: usize,
    out: &mut [u8],
    places: &mut [u64],
)
    requires { (room ≤ length out.old) × (listed ≤ length places.old) }
{
    let answer = capture::replay(capture, count, &mut out[..room], &mut places[..listed]);
    say_answer(stdout, answer);
    checks::say_check(stdout, out);
    say_places(stdout, places);
    checks::say(stdout, b"\n");
}

// One record, and whether to go on.
fn one<I: Read, O: Write>(stdin: &mut I, stdout: &mut O) -> bool {
    let mut start = [0u8; 7];
    if !checks::fills(stdin, &mut start) {
        return false;
    }
    let count = checks::four(start[0], start[1], start[2], start[3]);
    let length = checks::two(start[5], start[6]);
    let mut capture = [0u8; 4096];
    if !checks::fills_part(stdin, length, &mut capture) {
        return false;
    }
    let bytes = checks::part(length, &capture);
    let entries = bytes / 64 + 1;
    let room = checks::lent(bytes, start[4] == 1);
    let listed = checks::lent(entries, start[4] == 2);
    let mut out = [165u8; 4096];
    let mut places = [7u64; 65];
    answered(
        stdout,
        &capture[..bytes],
        count,
        room,
        listed,
        &mut out,
        &mut places,
    );
    true
}

// Nothing says that the input ends, so the loop counts its turns.
fn main(rt: HostRuntime) {
    let mut stdin = rt.stdin();
    let mut stdout = rt.stdout();
    for _ in 0..100000000u64 {
        if !one(&mut stdin, &mut stdout) {
            break;
        }
    }
}
