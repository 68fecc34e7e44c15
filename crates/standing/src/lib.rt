// All of a receiver but reading and drawing, over any coding: which store holds what, the four lines, the next state, the answer. State by value, in and out.
#![tactic(auto)]

ghost use Rattle.std.specs.Prelude.{◌≡◌, ◌<◌, ◌≤◌, eqb};
ghost use Rattle.laws.specs.Choice.{both, opposite};
ghost use Rattle.refusals.specs.Number.{number};
ghost use Rattle.refusals.specs.Told.{numbers_of};
ghost use Rattle.vault.specs.Block.{pictures};
ghost use Rattle.coding.specs.Kind.{coding_of};
ghost use Rattle.standing.specs.Answered.{told_opened, old, taken, lost, refused, said, reply, told_received};
ghost use Rattle.standing.specs.Stores.{stores_sized as sized_of, goes_into, any_finished, HandsBack};
ghost use Rattle.standing.specs.Receive.{opened_receiver, earlier_place as earlier_of, same_place as same_of, is_lost, place_of, line_of, mark_of, named_lengths as named_of, lost_progress, taken_progress, ended_progress, with_progress, failed_receiver, tick_in, finished_reply};
ghost use Rattle.standing.specs.Shown.{where_shown, refused_length, ShowHands};

use coding::Kind;
use refusals::{Reason, Refusal};
use size::Size;
use ticks::Tick;
use vault::Header;

// Which store holds the last finished picture.
#[derive(Clone, Copy, PartialEq, Eq, Debug)]
pub enum Holder {
    Neither,
    First,
    Second,
}

// The part of a picture.
#[derive(Clone, Copy, PartialEq, Eq, PartialOrd, Ord, Debug)]
pub struct Place {
    pub picture: u32,
    pub part: u8,
}

// How a receiver stands.
#[derive(Clone, Copy, PartialEq, Eq, Debug)]
pub enum Standing {
    Lost,
    Catching,
    InStep(u32),
}

// What a block changes.
#[derive(Clone, Copy, PartialEq, Eq, Debug)]
pub struct Progress {
    pub wanted: Place,
    pub standing: Standing,
    // The refresh mark of part 0 of what is collected.
    pub mark: bool,
}

// What only a finished picture changes.
#[derive(Clone, Copy, PartialEq, Eq, Debug)]
pub struct Last {
    pub holder: Holder,
    pub picture: u32,
    pub tick: Tick,
}

#[derive(Clone, Copy)]
pub struct Receiver {
    pub clip: u16,
    pub kind: Kind,
    pub progress: Progress,
    pub last: Last,
}

// With the picture and the part; with the picture's number and its tick.
#[derive(Clone, Copy, PartialEq, Eq, Debug)]
pub enum Answer {
    Old(u32, u8),
    Taken(u32, u8),
    Lost,
    Picture(u32, Tick),
    Refused(Refusal),
}

#[derive(Clone, Copy)]
pub struct Received {
    pub answer: Answer,
    pub next: Receiver,
}

// The first matching line of four.
#[derive(Clone, Copy, PartialEq, Eq, Debug)]
pub enum Line {
    Earlier,
    Next,
    Anew,
    Otherwise,
}

// ---- the lent buffers

// Whether two stores of these lengths have the named one.
pub fn sized(size: Size, first: usize, second: usize) -> bool
    ensures { result ≡ sized_of size first second }
{
    let named = size::store_length(size);
    if first != named {
        return false;
    }
    second == named
}

// Whether the collection and the two stores have their named lengths.
pub fn named(size: Size, collection: usize, first: usize, second: usize) -> bool
    ensures { result ≡ named_of size collection first second }
{
    if collection == size::collection_length(size) {
        return sized(size, first, second);
    }
    false
}

// The store that the next finished picture goes into.
pub fn goes_into(holder: Holder) -> Holder
    ensures { result ≡ goes_into holder }
{
    match holder {
        Holder::Neither => Holder::First,
        Holder::First => Holder::Second,
        Holder::Second => Holder::First,
    }
}

// The store that holds the last finished picture, not copied; an empty part of the first where neither does, or where one hasn't its named length.
pub fn store_shown<'a>(size: Size, holder: Holder, first: &'a [u8], second: &'a [u8]) -> &'a [u8]
    ensures { HandsBack size holder first.entry second.entry result }
{
    if sized(size, first.len(), second.len()) {
        match holder {
            Holder::Neither => &first[..0],
            Holder::First => first,
            Holder::Second => second,
        }
    } else {
        &first[..0]
    }
}

// ---- opening

pub fn open(clip: u16, kind: Kind) -> Result<Receiver, Refusal>
    ensures { told_opened result ≡ opened_receiver clip kind }
{
    if clip == 0 {
        return Err(Refusal {
            reason: Reason::BlockField,
            place: 0,
        });
    }
    Ok(Receiver {
        clip,
        kind,
        progress: Progress {
            wanted: Place {
                picture: 0,
                part: 0,
            },
            standing: Standing::Lost,
            mark: false,
        },
        last: Last {
            holder: Holder::Neither,
            picture: 0,
            tick: Tick::Exact(0),
        },
    })
}

// ---- the four lines

fn earlier(a: Place, b: Place) -> bool
    ensures { result ≡ earlier_of a b }
{
    a < b
}

fn not_lost(standing: Standing) -> bool
    ensures { result ≡ opposite (is_lost standing) }
{
    match standing {
        Standing::Lost => false,
        Standing::Catching => true,
        Standing::InStep(_) => true,
    }
}

fn place_of(header: Header) -> Place
    ensures { result ≡ place_of header }
{
    Place {
        picture: header.picture,
        part: header.part,
    }
}

fn same(a: Place, b: Place) -> bool
    ensures { result ≡ same_of a b }
{
    a == b
}

fn continues(here: Place, wanted: Place, standing: Standing) -> bool
    ensures { result ≡ both (same_of here wanted) (opposite (is_lost standing)) }
{
    if same(here, wanted) {
        return not_lost(standing);
    }
    false
}

fn begins(header: Header) -> bool
    ensures { result ≡ both (eqb header.part 0) header.refresh }
{
    if header.part == 0 {
        return header.refresh;
    }
    false
}

pub fn first_line(progress: Progress, header: Header) -> Line
    ensures { result ≡ line_of progress header }
{
    let wanted = progress.wanted;
    let standing = progress.standing;
    let here = place_of(header);
    if earlier(here, wanted) {
        return Line::Earlier;
    }
    if continues(here, wanted, standing) {
        return Line::Next;
    }
    if begins(header) {
        return Line::Anew;
    }
    Line::Otherwise
}

// ---- the next state

// The refresh mark of part 0 of what is collected, this part included.
pub fn mark_with(progress: Progress, header: Header) -> bool
    ensures { result ≡ mark_of progress header }
{
    if header.part == 0 {
        header.refresh
    } else {
        progress.mark
    }
}

// The next part is wanted.
fn next_part(progress: Progress, header: Header, standing: Standing) -> Progress
    requires { header.part ≤ 65 }
    ensures { result ≡ taken_progress progress header standing }
{
    let mark = mark_with(progress, header);
    Progress {
        wanted: Place {
            picture: header.picture,
            part: header.part + 1,
        },
        standing,
        mark,
    }
}

// Part 0 of the next picture is wanted.
fn next_picture(progress: Progress, header: Header, standing: Standing) -> Progress
    requires { header.picture < pictures }
    ensures { result ≡ ended_progress progress header standing }
{
    let mark = mark_with(progress, header);
    Progress {
        wanted: Place {
            picture: header.picture + 1, // "both then want part 0 of the next"
            part: 0,
        },
        standing,
        mark,
    }
}

fn with_progress(receiver: Receiver, progress: Progress) -> Receiver
    ensures { result ≡ with_progress receiver progress }
{
    let kind = receiver.kind;
    let last = receiver.last;
    Receiver {
        clip: receiver.clip,
        kind,
        progress,
        last,
    }
}

// ---- the answer, with the next state

// A block that is refused.
pub fn refuse(receiver: Receiver, why: Refusal) -> Received
    ensures { told_received result ≡ reply (refused (numbers_of why)) receiver }
{
    Received {
        answer: Answer::Refused(why),
        next: receiver, // "A refusal changes no buffer and no state"
    }
}

// "old, nothing changes"
pub fn pass_over(receiver: Receiver, header: Header) -> Received
    ensures { told_received result ≡ reply (old header.picture header.part) receiver }
{
    Received {
        answer: Answer::Old(header.picture, header.part),
        next: receiver,
    }
}

// "lost, collection dropped, wanted place kept"
pub fn lose(receiver: Receiver) -> Received
    ensures { told_received result ≡ reply lost (with_progress receiver (lost_progress receiver.progress)) }
{
    let progress = receiver.progress;
    let wanted = progress.wanted;
    let mark = progress.mark;
    let next = with_progress(
        receiver,
        Progress {
            wanted,
            standing: Standing::Lost,
            mark,
        },
    );
    Received {
        answer: Answer::Lost,
        next,
    }
}

// A part that isn't the last is taken.
pub fn take(receiver: Receiver, header: Header, standing: Standing) -> Received
    requires { header.part ≤ 65 }
    ensures { told_received result ≡ reply (taken header.picture header.part) (with_progress receiver (taken_progress receiver.progress header standing)) }
{
    let progress = receiver.progress;
    let ahead = next_part(progress, header, standing);
    let next = with_progress(receiver, ahead);
    Received {
        answer: Answer::Taken(header.picture, header.part),
        next,
    }
}

// A last part, whose picture is refused: "refused means lost".
pub fn fail(receiver: Receiver, header: Header, why: Refusal) -> Received
    requires { header.picture < pictures }
    ensures { told_received result ≡ reply (refused (numbers_of why)) (failed_receiver receiver header) }
{
    let progress = receiver.progress;
    let onward = next_picture(progress, header, Standing::Lost);
    let next = with_progress(receiver, onward);
    Received {
        answer: Answer::Refused(why),
        next,
    }
}

// Whether a picture was finished.
pub fn any_finished(holder: Holder) -> bool
    ensures { result ≡ any_finished holder }
{
    match holder {
        Holder::Neither => false,
        Holder::First => true,
        Holder::Second => true,
    }
}

// The tick of the picture of this number and TR, finished after the last one.
fn tick_in(modulus: u32, last: Last, picture: u32, tr: u32) -> Tick
    requires { 1 ≤ modulus }
    ensures { result ≡ tick_in modulus last picture tr }
{
    let holder = last.holder;
    let tick = last.tick;
    if any_finished(holder) {
        return ticks::later(modulus, last.picture, tick, picture, tr);
    }
    ticks::first(picture, tr)
}

// A last part, whose picture is accepted, with its TR: "accepted means in step at that picture".
pub fn succeed(receiver: Receiver, header: Header, tr: u32) -> Received
    requires { header.picture < pictures }
    ensures { told_received result ≡ finished_reply receiver header (tick_in (coding_of receiver.kind).modulus receiver.last header.picture tr) }
{
    let kind = receiver.kind;
    let last = receiver.last;
    let held = last.holder;
    let tick = tick_in(coding::modulus(kind), last, header.picture, tr);
    let holder = goes_into(held);
    let before = receiver.progress;
    let progress = next_picture(before, header, Standing::InStep(header.picture));
    Received {
        answer: Answer::Picture(header.picture, tick),
        next: Receiver {
            clip: receiver.clip,
            kind,
            progress,
            last: Last {
                holder,
                picture: header.picture,
                tick,
            },
        },
    }
}

// ---- what is shown

fn where_shown(standing: Standing, holder: Holder) -> Holder
    ensures { result ≡ where_shown standing holder }
{
    match standing {
        Standing::Lost => Holder::Neither,
        Standing::Catching => Holder::Neither,
        Standing::InStep(_) => holder,
    }
}

fn is_length(reason: Reason) -> bool
    ensures { result ≡ eqb (number reason) 1 }
{
    match reason {
        Reason::Length => true,
        _ => false,
    }
}

fn refused_length(answer: Answer) -> bool
    ensures { result ≡ refused_length (said answer) }
{
    match answer {
        Answer::Refused(why) => {
            let reason = why.reason;
            is_length(reason)
        }
        Answer::Old(_, _) => false,
        Answer::Taken(_, _) => false,
        Answer::Lost => false,
        Answer::Picture(_, _) => false,
    }
}

// The picture to show after a call, not copied: the store that holds picture k where the receiver is in step at k; else an empty part of the first.
pub fn show<'a>(received: Received, first: &'a [u8], second: &'a [u8]) -> &'a [u8]
    ensures { ShowHands (told_received received) first.entry second.entry result }
{
    let answer = received.answer;
    let receiver = received.next;
    let kind = receiver.kind;
    let progress = receiver.progress;
    let standing = progress.standing;
    let last = receiver.last;
    let holder = last.holder;
    let size = coding::size_of(kind);
    if refused_length(answer) {
        return store_shown(size, Holder::Neither, first, second);
    }
    let shown = where_shown(standing, holder);
    store_shown(size, shown, first, second)
}
