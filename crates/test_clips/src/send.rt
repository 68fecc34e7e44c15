// Descriptions sent: a call is how often it is made in two bytes, which buffer is lent without its last byte in one (0 none, 1 the first store, 2 the second, 3 the output),
// and the description. The line of its last time: "sent PICTURE BLOCKS" or "refused NUMBER", and the checks of output, first and second store.
use crate::{Called, Party};
use checks::part;
use refusals::Refusal;
use sender::Sender;
use std::io::{Read, Write};

// The sender as it stands before a later picture: a state is a value, so the clip's end need not be reached by sending.
pub fn before(sender: Sender, picture: u32) -> Sender {
    let kind = sender.kind;
    let holder = sender.holder;
    Sender {
        clip: sender.clip,
        kind,
        picture,
        holder,
    }
}

fn say_answer<O: Write>(stdout: &mut O, picture: u32, answer: Result<usize, Refusal>) {
    match answer {
        Ok(blocks) => {
            checks::say(stdout, b"sent");
            checks::say_number(stdout, picture as u64);
            checks::say_number(stdout, blocks as u64);
        }
        Err(why) => checks::say_refusal(stdout, why),
    }
}

// The same call again and again; what the last one answers is printed.
fn repeat<O: Write>(
    stdout: &mut O,
    sender: Sender,
    times: usize,
    head: &[u8],
    macroblocks: &[u8],
    levels: &[u8],
    out: &mut [u8],
    first: &mut [u8],
    second: &mut [u8],
) -> Sender {
    let mut picture = sender.picture;
    let mut last = sender::send(sender, head, macroblocks, levels, out, first, second);
    for _ in 1..times {
        let next = last.next;
        picture = next.picture;
        last = sender::send(next, head, macroblocks, levels, out, first, second);
    }
    let answer = last.answer;
    say_answer(stdout, picture, answer);
    last.next
}

pub fn call<I: Read, O: Write>(
    stdin: &mut I,
    stdout: &mut O,
    sender: Sender,
    times: usize,
    out: &mut [u8],
    first: &mut [u8],
    second: &mut [u8],
) -> Option<Called> {
    let mut head = [0u8; 64];
    let mut macroblocks = [0u8; 2048];
    let mut levels = [0u8; 153600];
    let read = checks::next_description(stdin, &mut head, &mut macroblocks, &mut levels)?;
    let headed = part(read.head, &head);
    let fielded = part(read.macroblocks, &macroblocks);
    let levelled = part(read.levels, &levels);
    let next = repeat(
        stdout,
        sender,
        times,
        &head[..headed],
        &macroblocks[..fielded],
        &levels[..levelled],
        out,
        first,
        second,
    );
    Some(Called {
        next: Party::Sending(next),
        told: true,
    })
}
