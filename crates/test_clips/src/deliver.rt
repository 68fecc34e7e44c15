// Blocks delivered: a call is which buffer is lent without its last byte (0 none, 1 collection, 2 first store, 3 second store), the block's length in two bytes, the block.
// Its line: "ANSWER, STAND, SHOWN", the answer as the lister writes it, and after a last part was read also ", COLLECTION FIRST SECOND", the checks of the three buffers.
use crate::{Called, Party};
use standing::{Answer, Holder, Received, Receiver, Standing};
use std::io::{Read, Write};

// Whether a last part was read.
fn was_read(answer: Answer) -> bool {
    match answer {
        Answer::Picture(_, _) => true,
        Answer::Refused(why) => {
            let reason = why.reason;
            let number = refusals::number_of(reason);
            // 5 at 0 is a block's
            if number == 5 {
                return 0 < why.place;
            }
            2 <= number && number <= 14 || number == 24
        }
        Answer::Old(_, _) => false,
        Answer::Taken(_, _) => false,
        Answer::Lost => false,
    }
}

// Where both stores hold the same bytes, what is handed back doesn't tell which it is: the state says.
fn say_holder<O: Write>(stdout: &mut O, holder: Holder) {
    match holder {
        Holder::Neither => {
            checks::say(stdout, b"a store of neither");
        }
        Holder::First => {
            checks::say(stdout, b"first");
        }
        Holder::Second => {
            checks::say(stdout, b"second");
        }
    }
}

// Which store the part handed back is, by its bytes.
fn say_part<O: Write>(stdout: &mut O, part: &[u8], holder: Holder, first: &[u8], second: &[u8]) {
    if part.len() == 0 {
        checks::say(stdout, b"none");
        return;
    }
    if text::same(part, first) {
        if text::same(part, second) {
            say_holder(stdout, holder);
        } else {
            checks::say(stdout, b"first");
        }
        return;
    }
    if text::same(part, second) {
        checks::say(stdout, b"second");
    } else {
        checks::say(stdout, b"neither store");
    }
}

fn say_shown<'a, O: Write>(stdout: &mut O, received: Received, first: &'a [u8], second: &'a [u8]) {
    let next = received.next;
    let last = next.last;
    let holder = last.holder;
    let part = standing::show(received, first, second);
    say_part(stdout, part, holder, first, second);
}

// "ANSWER, STAND"
fn say_answer<O: Write>(stdout: &mut O, answer: Answer, standing: Standing) {
    let mut text = [0u8; 128];
    let answered = listing::put_answer(answer, 0, &mut text);
    let parted = text::put(b",", answered, &mut text);
    let stood = listing::put_standing(standing, parted, &mut text);
    checks::say_unspaced(stdout, stood, &text);
}

fn receive<O: Write>(
    stdout: &mut O,
    receiver: Receiver,
    block: &[u8],
    collection: &mut [u8],
    first: &mut [u8],
    second: &mut [u8],
) -> Called {
    let received = receiver::receive(receiver, block, collection, first, second);
    let answer = received.answer;
    let next = received.next;
    let progress = next.progress;
    let standing = progress.standing;
    say_answer(stdout, answer, standing);
    checks::say(stdout, b", ");
    say_shown(stdout, received, first, second);
    let told = was_read(answer);
    if told {
        checks::say(stdout, b",");
    }
    Called {
        next: Party::Receiving(next),
        told,
    }
}

pub fn call<I: Read, O: Write>(
    stdin: &mut I,
    stdout: &mut O,
    receiver: Receiver,
    length: usize,
    collection: &mut [u8],
    first: &mut [u8],
    second: &mut [u8],
) -> Option<Called> {
    let mut block = [0u8; 1024];
    if !checks::fills_part(stdin, length, &mut block) {
        return None;
    }
    let whole = checks::part(length, &block);
    Some(receive(stdout, receiver, &block[..whole], collection, first, second))
}
