// How much reading the pictures of a vault cause: which blocks end one, how many fields and codewords reading it makes, and its line.
#![tactic(auto)]

ghost use Rattle.std.specs.Prelude.{◌≡◌, ◌+◌, ◌≤◌, length};
ghost use Rattle.io.specs.Counts.{IsPrefixLen};
ghost use Rattle.coding.specs.Kind.{coding_of, reads_of};
ghost use Rattle.standing.specs.Answered.{said};
ghost use Rattle.standing.specs.Receive.{line_of, buffers, decide};
ghost use Rattle.text.specs.Text.{over};
ghost use Rattle.text.specs.Puts.{Puts};
ghost use Rattle.counting.specs.Ending.{ended_with, ended_by, ended_after, ended_in};
ghost use Rattle.counting.specs.Lines.{outcome_text, counts_text, reads_text};

use coding::Kind;
use listing::Clip;
use size::Size;
use standing::{Answer, Line, Progress, Receiver};
use vault::Header;

// ---- which blocks end a picture

// Of how many bits the picture is that a block ended, and which was then read; none where it ended none.
// A block that is taken ends one where it is a last part: all parts before it have 4000 bits.
fn ended_with(header: Header) -> Option<usize>
    requires { (header.part ≤ 65) × (header.used ≤ 4000) }
    ensures { result ≡ ended_with header }
{
    if header.last {
        return Some(4000 * (header.part as usize) + (header.used as usize));
    }
    None
}

// A good block of the clip is taken by two of the four lines.
fn ended_by(progress: Progress, header: Header) -> Option<usize>
    requires { (header.part ≤ 65) × (header.used ≤ 4000) }
    ensures { result ≡ ended_by (line_of progress header) header }
{
    match standing::first_line(progress, header) {
        Line::Earlier => None,
        Line::Next => ended_with(header),
        Line::Anew => ended_with(header),
        Line::Otherwise => None,
    }
}

// A block that comes to this receiver.
fn ended_after(
    receiver: Receiver,
    block: &[u8],
    collection: &[u8],
    first: &[u8],
    second: &[u8],
) -> Option<usize>
    ensures { result ≡ ended_after (decide coding_of receiver block.now (buffers collection.now first.now second.now)) }
{
    let kind = receiver.kind;
    let size = coding::size_of(kind);
    if standing::named(size, collection.len(), first.len(), second.len()) {
        let standard = coding::standard_of(kind);
        match vault::judge(size, standard, receiver.clip, block) {
            Ok(header) => {
                let progress = receiver.progress;
                ended_by(progress, header)
            }
            Err(_) => None,
        }
    } else {
        None
    }
}

// A block that comes to this clip: what `listing::list` will do with it.
pub fn ended(
    size: Size,
    clip: Clip,
    block: &[u8],
    collection: &[u8],
    first: &[u8],
    second: &[u8],
) -> Option<usize>
    ensures { result ≡ ended_in size clip block.now (buffers collection.now first.now second.now) }
{
    match listing::find(size, clip, block) {
        Ok(receiver) => ended_after(receiver, block, collection, first, second),
        Err(_) => None,
    }
}

// ---- how much reading it causes

// How many fields and codewords are read of the first N bits, up to a refusal if there is one.
pub fn reads(kind: Kind, bytes: &[u8], count: usize) -> usize
    ensures { result ≡ reads_of kind bytes.now count }
{
    let mut head = [0u8; 23];
    let mut macroblocks = [0u8; 1584];
    let mut levels = [0u8; 152064];
    let heads = coding::head_length(kind);
    let fields = coding::macroblocks_length(kind);
    let coefficients = coding::levels_length(kind);
    let read = coding::parse_counted(
        kind,
        bytes,
        count,
        &mut head[..heads],
        &mut macroblocks[..fields],
        &mut levels[..coefficients],
    );
    read.reads
}

// ---- its line

// " picture 0", " refused 8 at 311 table 5".
fn put_outcome(answer: Answer, at: usize, out: &mut [u8]) -> usize
    requires { at + 80 ≤ length out.old }
    ensures upper_bound { result ≤ at + 80 }
    ensures puts { Puts (outcome_text (said answer)) at out.old out.new result }
{
    match answer {
        Answer::Picture(picture, _) => {
            let named = text::put(b" picture ", at, out);
            text::put_number(picture as u64, named, out)
        }
        Answer::Refused(_) => listing::put_answer(answer, at, out),
        Answer::Old(_, _) => listing::put_answer(answer, at, out),
        Answer::Taken(_, _) => listing::put_answer(answer, at, out),
        Answer::Lost => listing::put_answer(answer, at, out),
    }
}

// " bits 45531 reads 6424".
fn put_counts(bits: usize, reads: usize, at: usize, out: &mut [u8]) -> usize
    requires { at + 53 ≤ length out.old }
    ensures upper_bound { result ≤ at + 53 }
    ensures puts { Puts (counts_text bits reads) at out.old out.new result }
{
    let named = text::put(b" bits ", at, out);
    let sized = text::put_number(bits as u64, named, out);
    let parted = text::put(b" reads ", sized, out);
    text::put_number(reads as u64, parted, out)
}

// The line of block n, which ended a picture: it stands at the start of `out`, and its length is given back.
pub fn line(n: u64, answer: Answer, bits: usize, reads: usize, out: &mut [u8; 256]) -> usize
    ensures prefix_len { IsPrefixLen result out.new }
    ensures value { result ≡ length (reads_text n answer bits reads) }
    ensures out_after { out.new ≡ over (reads_text n answer bits reads) out.old }
{
    let numbered = text::put_number(n, 0, out);
    let answered = put_outcome(answer, numbered, out);
    let counted = put_counts(bits, reads, answered, out);
    text::put(b"\n", counted, out)
}
