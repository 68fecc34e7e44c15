// A receiver of one clip's blocks: each is judged, collected and answered, and a last part's picture is read and drawn.
#![tactic(auto)]

ghost use Rattle.std.specs.Prelude.{◌≡◌, ◌≤◌};
ghost use Rattle.coding.specs.Kind.{coding_of};
ghost use Rattle.vault.specs.Parts.{placed_payload};
ghost use Rattle.standing.specs.Stores.{stores};
ghost use Rattle.standing.specs.Receive.{line_of, count_of, ended_picture, took_of, by_line, buffers, outcome, came_to};
ghost use Rattle.receiver.specs.Receiving.{ReceiveDoes, Fitting, Ready, Settles};

use refusals::{Reason, Refusal};
use standing::{Line, Received, Receiver, Standing};
use vault::Header;

// ---- a last part

// N, by the last part: all parts before it have 4000 bits.
fn count_of(header: Header) -> usize
    requires { (header.part ≤ 65) × (header.used ≤ 4000) }
    ensures { result ≡ count_of header }
{
    4000 * (header.part as usize) + (header.used as usize)
}

// Its picture is read, its mark judged, and then it is drawn into a store.
fn finish(
    receiver: Receiver,
    header: Header,
    collection: &[u8],
    first: &mut [u8],
    second: &mut [u8],
) -> Received
    requires { Fitting receiver.kind header first.old second.old }
    ensures { Settles coding_of receiver (stores first.old second.old) (ended_picture coding_of receiver header ((coding_of receiver.kind).read collection.now (count_of header))) result (stores first.new second.new) }
{
    let kind = receiver.kind;
    let progress = receiver.progress;
    let last = receiver.last;
    let holder = last.holder;
    let count = count_of(header);
    let marked = standing::mark_with(progress, header);
    let mark = Some(marked);
    let drawn = stores::keep_read(kind, holder, collection, count, mark, first, second);
    match drawn {
        Err(why) => standing::fail(receiver, header, why),
        Ok(tr) => standing::succeed(receiver, header, tr),
    }
}

// ---- a block

// A block that is taken: its payload is collected, and a last part read at once.
fn collect(
    receiver: Receiver,
    header: Header,
    standing: Standing,
    block: &[u8],
    collection: &mut [u8],
    first: &mut [u8],
    second: &mut [u8],
) -> Received
    requires { Ready receiver.kind header block.now collection.old first.old second.old }
    ensures { outcome result (buffers collection.new first.new second.new) ≡ came_to coding_of receiver block.now (buffers collection.old first.old second.old) (took_of coding_of receiver header standing (placed_payload block.now header.part collection.old)) }
{
    let part = header.part;
    vault::place(block, part, collection);
    if header.last {
        return finish(receiver, header, collection, first, second);
    }
    standing::take(receiver, header, standing)
}

// A good block of this clip, by the first matching line.
fn act(
    receiver: Receiver,
    header: Header,
    block: &[u8],
    collection: &mut [u8],
    first: &mut [u8],
    second: &mut [u8],
) -> Received
    requires { Ready receiver.kind header block.now collection.old first.old second.old }
    ensures { outcome result (buffers collection.new first.new second.new) ≡ came_to coding_of receiver block.now (buffers collection.old first.old second.old) (by_line coding_of (line_of receiver.progress header) receiver header block.now collection.old) }
{
    let progress = receiver.progress;
    let line = standing::first_line(progress, header);
    match line {
        Line::Earlier => standing::pass_over(receiver, header),
        Line::Next => {
            let standing = progress.standing;
            collect(receiver, header, standing, block, collection, first, second)
        }
        Line::Anew => collect(
            receiver,
            header,
            Standing::Catching,
            block,
            collection,
            first,
            second,
        ),
        Line::Otherwise => standing::lose(receiver),
    }
}

// A block comes: the answer and the next state; the payload in the collection, a finished picture in a store.
pub fn receive(
    receiver: Receiver,
    block: &[u8],
    collection: &mut [u8],
    first: &mut [u8],
    second: &mut [u8],
) -> Received
    ensures { ReceiveDoes receiver block.now (buffers collection.old first.old second.old) result (buffers collection.new first.new second.new) }
{
    let kind = receiver.kind;
    let clip = receiver.clip;
    let size = coding::size_of(kind);
    if standing::named(size, collection.len(), first.len(), second.len()) {
        let standard = coding::standard_of(kind);
        let checked = vault::judge(size, standard, clip, block);
        match checked {
            Ok(header) => act(receiver, header, block, collection, first, second),
            Err(why) => standing::refuse(receiver, why),
        }
    } else {
        standing::refuse(
            receiver,
            Refusal {
                reason: Reason::Length,
                place: 0,
            },
        )
    }
}
