// The vault lister's work but reading and writing: the clip that is listed, what each block comes to, and its line.
#![tactic(auto)]

ghost use Rattle.std.specs.Prelude.{◌≡◌, ◌+◌, ◌≤◌, length};
ghost use Rattle.io.specs.Counts.{IsPrefixLen};
ghost use Rattle.coding.specs.Kind.{kind_in, coding_of};
ghost use Rattle.vault.specs.Block.{told_checked};
ghost use Rattle.standing.specs.Answered.{told_opened, said};
ghost use Rattle.standing.specs.Receive.{buffers, step};
ghost use Rattle.text.specs.Text.{over};
ghost use Rattle.text.specs.Puts.{Puts};
ghost use Rattle.listing.specs.Lines.{place_text, tick_text, picture_text, text_of, line_text, short_text, standing_text};
ghost use Rattle.listing.specs.Listed.{opened_kind, opened_by, found_by, stays, came, stepped, begun, listed as listed_of, known_number, chosen_clip, end_of, end_text};

use refusals::{Reason, Refusal};
use size::Size;
use standing::{Answer, Receiver, Standing};
use ticks::Tick;
use vault::Header;

// The clip that is listed: any, or one that was asked for by its number, until its first good block; then its receiver.
#[derive(Clone, Copy)]
pub enum Clip {
    Unknown,
    Asked(u16),
    Known(Receiver),
}

#[derive(Clone, Copy)]
pub struct Listed {
    pub answer: Answer,
    pub next: Clip,
}

// ---- what a block comes to

// A receiver for the clip of a good block, in the block's own standard; 5 where that hasn't the size.
fn open_by(size: Size, header: Header) -> Result<Receiver, Refusal>
    ensures { told_opened result ≡ opened_kind header.clip (kind_in header.standard size) }
{
    let standard = header.standard;
    match coding::kind_in(standard, size) {
        Some(kind) => standing::open(header.clip, kind),
        None => Err(Refusal {
            reason: Reason::OtherFormat,
            place: 0,
        }),
    }
}

// The same of a block that was checked.
fn open_checked(size: Size, checked: Result<Header, Refusal>) -> Result<Receiver, Refusal>
    ensures { told_opened result ≡ opened_by size (told_checked checked) }
{
    let header = checked?;
    open_by(size, header)
}

// The receiver that a block comes to: the clip's, or one for the block's clip; or 1, 21, 22, then 23 where another clip was asked for, then 5.
pub fn find(size: Size, clip: Clip, block: &[u8]) -> Result<Receiver, Refusal>
    ensures { told_opened result ≡ found_by size clip block.now }
{
    match clip {
        Clip::Known(receiver) => Ok(receiver),
        Clip::Unknown => {
            let checked = vault::check(size, block);
            open_checked(size, checked)
        }
        Clip::Asked(asked) => {
            let checked = vault::of_clip(size, asked, block);
            open_checked(size, checked)
        }
    }
}

fn go_on(
    receiver: Receiver,
    block: &[u8],
    collection: &mut [u8],
    first: &mut [u8],
    second: &mut [u8],
) -> Listed
    ensures { came result (buffers collection.new first.new second.new) ≡ stepped (step coding_of receiver block.now (buffers collection.old first.old second.old)) }
{
    let received = receiver::receive(receiver, block, collection, first, second);
    let answer = received.answer;
    let next = received.next;
    Listed {
        answer,
        next: Clip::Known(next),
    }
}

// No receiver is opened by a refusal.
fn refused(clip: Clip, why: Refusal) -> Listed
    ensures { result ≡ stays clip why }
{
    Listed {
        answer: Answer::Refused(why),
        next: clip,
    }
}

// A block comes before the clip has a receiver: a good one opens it, unless a lent buffer hasn't its named length.
fn begin(
    size: Size,
    clip: Clip,
    block: &[u8],
    collection: &mut [u8],
    first: &mut [u8],
    second: &mut [u8],
) -> Listed
    ensures { came result (buffers collection.new first.new second.new) ≡ begun size clip block.now (buffers collection.old first.old second.old) }
{
    if standing::named(size, collection.len(), first.len(), second.len()) {
        match find(size, clip, block) {
            Ok(receiver) => go_on(receiver, block, collection, first, second),
            Err(why) => refused(clip, why),
        }
    } else {
        refused(
            clip,
            Refusal {
                reason: Reason::Length,
                place: 0,
            },
        )
    }
}

// A block comes: the answer, and the clip afterwards.
pub fn list(
    size: Size,
    clip: Clip,
    block: &[u8],
    collection: &mut [u8],
    first: &mut [u8],
    second: &mut [u8],
) -> Listed
    ensures { came result (buffers collection.new first.new second.new) ≡ listed_of size clip block.now (buffers collection.old first.old second.old) }
{
    match clip {
        Clip::Known(receiver) => go_on(receiver, block, collection, first, second),
        Clip::Unknown => begin(size, clip, block, collection, first, second),
        Clip::Asked(_) => begin(size, clip, block, collection, first, second),
    }
}

// ---- the clip that a block chose

// The number of a clip that is known; 0, which no clip has, of none.
fn known_number(clip: Clip) -> u16
    ensures { result ≡ known_number clip }
{
    match clip {
        Clip::Unknown => 0,
        Clip::Asked(_) => 0,
        Clip::Known(receiver) => receiver.clip,
    }
}

// By the clip before the block and after it: where none was asked for or known, the one that is known now; else 0.
pub fn chosen(before: Clip, after: Clip) -> u16
    ensures { result ≡ chosen_clip before after }
{
    match before {
        Clip::Unknown => known_number(after),
        Clip::Asked(_) => 0,
        Clip::Known(_) => 0,
    }
}

// ---- the lines

fn put_place(word: &[u8], picture: u32, part: u8, at: usize, out: &mut [u8]) -> usize
    requires { at + length word.now + 41 ≤ length out.old }
    ensures upper_bound { result ≤ at + length word.now + 41 }
    ensures puts { Puts (place_text word.now picture part) at out.old out.new result }
{
    let named = text::put(word, at, out);
    let pictured = text::put_number(picture as u64, named, out);
    let dotted = text::put(b".", pictured, out);
    text::put_number(part as u64, dotted, out)
}

// "65", "about 33".
fn put_tick(tick: Tick, at: usize, out: &mut [u8]) -> usize
    requires { at + 26 ≤ length out.old }
    ensures upper_bound { result ≤ at + 26 }
    ensures puts { Puts (tick_text tick) at out.old out.new result }
{
    match tick {
        Tick::Exact(n) => text::put_number(n as u64, at, out),
        Tick::Estimated(n) => {
            let named = text::put(b"about ", at, out);
            text::put_number(n as u64, named, out)
        }
    }
}

fn put_picture(picture: u32, tick: Tick, at: usize, out: &mut [u8]) -> usize
    requires { at + 61 ≤ length out.old }
    ensures upper_bound { result ≤ at + 61 }
    ensures puts { Puts (picture_text picture tick) at out.old out.new result }
{
    let named = text::put(b" picture ", at, out);
    let pictured = text::put_number(picture as u64, named, out);
    let ticking = text::put(b" tick ", pictured, out);
    put_tick(tick, ticking, out)
}

// " taken 3.1", " picture 3 tick 3", " picture 3 tick about 36", " refused 21", " refused 8 at 311 table 5".
pub fn put_answer(answer: Answer, at: usize, out: &mut [u8]) -> usize
    requires { at + 80 ≤ length out.old }
    ensures upper_bound { result ≤ at + 80 }
    ensures puts { Puts (text_of (said answer)) at out.old out.new result }
{
    match answer {
        Answer::Old(picture, part) => put_place(b" old ", picture, part, at, out),
        Answer::Taken(picture, part) => put_place(b" taken ", picture, part, at, out),
        Answer::Lost => text::put(b" lost", at, out),
        Answer::Picture(picture, tick) => put_picture(picture, tick, at, out),
        Answer::Refused(why) => text::put_refusal(why, at, out),
    }
}

// The line of block n: it stands at the start of `out`, and its length is given back.
pub fn line(n: u64, answer: Answer, out: &mut [u8; 128]) -> usize
    ensures prefix_len { IsPrefixLen result out.new }
    ensures value { result ≡ length (line_text n answer) }
    ensures out_after { out.new ≡ over (line_text n answer) out.old }
{
    let numbered = text::put_number(n, 0, out);
    let answered = put_answer(answer, numbered, out);
    text::put(b"\n", answered, out)
}

// The line of a short last block.
pub fn short(n: u64, out: &mut [u8; 128]) -> usize
    ensures prefix_len { IsPrefixLen result out.new }
    ensures value { result ≡ length (short_text n) }
    ensures out_after { out.new ≡ over (short_text n) out.old }
{
    let numbered = text::put_number(n, 0, out);
    text::put(b" short\n", numbered, out)
}

// " lost", " catching", " in step at 3".
pub fn put_standing(standing: Standing, at: usize, out: &mut [u8]) -> usize
    requires { at + 32 ≤ length out.old }
    ensures upper_bound { result ≤ at + 32 }
    ensures puts { Puts (standing_text standing) at out.old out.new result }
{
    match standing {
        Standing::Lost => text::put(b" lost", at, out),
        Standing::Catching => text::put(b" catching", at, out),
        Standing::InStep(picture) => {
            let named = text::put(b" in step at ", at, out);
            text::put_number(picture as u64, named, out)
        }
    }
}

// "end clip 7 lost".
fn put_end(clip: u16, standing: Standing, at: usize, out: &mut [u8]) -> usize
    requires { at + 62 ≤ length out.old }
    ensures upper_bound { result ≤ at + 62 }
    ensures puts { Puts (end_of clip standing) at out.old out.new result }
{
    let named = text::put(b"end clip ", at, out);
    let clipped = text::put_number(clip as u64, named, out);
    let stood = put_standing(standing, clipped, out);
    text::put(b"\n", stood, out)
}

// The last line. A clip of which no good block came is lost.
pub fn end(clip: Clip, out: &mut [u8; 128]) -> usize
    ensures prefix_len { IsPrefixLen result out.new }
    ensures value { result ≡ length (end_text clip) }
    ensures out_after { out.new ≡ over (end_text clip) out.old }
{
    match clip {
        Clip::Unknown => text::put(b"end none\n", 0, out),
        Clip::Asked(asked) => put_end(asked, Standing::Lost, 0, out),
        Clip::Known(receiver) => {
            let progress = receiver.progress;
            let standing = progress.standing;
            put_end(receiver.clip, standing, 0, out)
        }
    }
}
