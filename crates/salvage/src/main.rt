// Makes a new clip of a damaged list of blocks: `salvage KIND OLD NEW BLOCKS`, with KIND as `pack` has it, OLD and NEW from 1 to 65535 and BLOCKS a file.
//
// On standard output the blocks of the pictures that a fresh receiver of clip OLD finishes, numbered from 0 on, as clip NEW. On standard error the log, in the order of the
// blocks: a line for each picture that is kept, each run of numbers that is skipped and each block that is dropped; or `refused 1`, where the file ends inside a block,
// `refused 22`, where OLD or NEW is 0, `refused 43`, where no picture is kept. A list of any length goes through two receivers, by the steps of `salvaging::salvage`: the
// second runs ahead to where the picture that is collected is finished or dropped.
//
//     ./pagesorrel salvage qcif 7 9 lossy.blocks > new.blocks 2> new.log
#![tactic(auto)]

use account::input::Next;
use account::streams::Streams;
use account::{Ended, Failure};
use coding::Kind;
use refusals::Reason;
use salvaging::{Entries, Entry, Fate, Sight, Tally};
use standing::{Answer, Received, Receiver};
use std::io::{ErrorKind, Read, Seek, SeekFrom, Write};
use std::process::ExitCode;
use std::rt::Files;
use std::{fs, io};

// ---- the file

// Whether the file has another block. A list that has grown or shrunk since its length was taken may end inside one: that is no end of it, and is taken like a read that failed,
// of which the system says nothing.
fn read_block<F: Read>(file: &mut F, block: &mut [u8; 512]) -> Result<bool, Failure> {
    let filled = account::input::fill(file, block);
    match account::input::next_of(filled)? {
        Next::Block => Ok(true),
        Next::End => Ok(false),
        Next::Short => Err(Failure::Unread(io::Error::new(ErrorKind::UnexpectedEof, ""))),
    }
}

fn go_to<F: Seek>(file: &mut F, place: SeekFrom) -> Result<u64, Failure> {
    file.seek(place).map_err(Failure::Unread)
}

// Where one has come to, the other goes on.
fn follow<F: Seek>(file: &mut F, ahead: &mut F) -> Result<u64, Failure> {
    let here = file.stream_position().map_err(Failure::Unread)?;
    go_to(ahead, SeekFrom::Start(here))
}

// ---- looking ahead

// Whether a picture is finished, any or the one that is sought; nothing where blocks that follow have to say. A block that goes on whatever comes later finishes a picture.
fn found_by(sought: Option<u32>, received: Received) -> Option<bool> {
    let Some(picture) = sought else {
        return salvaging::goes_on(received.answer, false).then_some(true);
    };
    match salvaging::look(picture, received) {
        Sight::Finished => Some(true),
        Sight::Gone => Some(false),
        Sight::Collecting => None,
    }
}

// Nothing says that the file ends, so the loop counts its turns.
fn find<F: Read>(
    file: &mut F,
    sought: Option<u32>,
    begun: Receiver,
    collection: &mut [u8],
    first: &mut [u8],
    second: &mut [u8],
) -> Result<bool, Failure> {
    let mut receiver = begun;
    for _ in 0..u64::MAX {
        let mut block = [0u8; 512];
        if !read_block(file, &mut block)? {
            return Ok(false);
        }
        let received = receiver::receive(receiver, &block, collection, first, second);
        if let Some(found) = found_by(sought, received) {
            return Ok(found);
        }
        receiver = received.next;
    }
    Ok(false)
}

// ---- a picture's fate

// The two are of one length, so that the test never fails.
fn copy(from: &[u8], to: &mut [u8]) {
    if from.len() <= to.len() {
        to[..from.len()].copy_from_slice(from);
    }
}

// What is known of the picture that is collected. Where a block asks for its picture's fate, the second receiver goes on from the first one's state.
fn settle<F: Read + Seek>(
    file: &mut F,
    ahead: &mut F,
    fate: Option<Fate>,
    received: Received,
    collection: &[u8],
    first: &[u8],
    second: &[u8],
    collection_ahead: &mut [u8],
    first_ahead: &mut [u8],
    second_ahead: &mut [u8],
) -> Result<Option<Fate>, Failure> {
    let Some(picture) = salvaging::asks(fate, received.answer) else {
        return Ok(salvaging::still(fate, received.answer));
    };
    copy(collection, collection_ahead);
    copy(first, first_ahead);
    copy(second, second_ahead);
    follow(file, ahead)?;
    let kept = find(
        ahead,
        Some(picture),
        received.next,
        collection_ahead,
        first_ahead,
        second_ahead,
    )?;
    Ok(Some(Fate { picture, kept }))
}

// ---- what is written

// A new number is no greater than the old one, so that the test never fails.
fn put_renewed<I, O: Write, E>(
    streams: &mut Streams<I, O, E>,
    clip: u16,
    picture: u64,
    block: &[u8; 512],
) -> Result<(), Failure> {
    if picture < 1048576 {
        let mut renewed = [0u8; 512];
        vault::renew(clip, picture as u32, block, &mut renewed);
        return account::streams::put(streams, &renewed);
    }
    Err(Failure::Unwritten(ErrorKind::InvalidData.into()))
}

fn say<I, O, E: Write>(streams: &mut Streams<I, O, E>, entry: Entry) -> Result<(), Failure> {
    let mut text = [0u8; 128];
    let count = salvage_log::line(entry, &mut text);
    account::going::written(account::streams::say(streams, &text[..count]))
}

fn say_all<I, O, E: Write>(
    streams: &mut Streams<I, O, E>,
    entries: Entries,
) -> Result<(), Failure> {
    match entries {
        Entries::Nothing => Ok(()),
        Entries::One(entry) => say(streams, entry),
        Entries::Two(first, second) => {
            say(streams, first)?;
            say(streams, second)
        }
    }
}

// ---- a block

// What the blocks so far have led to.
#[derive(Clone, Copy)]
struct State {
    receiver: Receiver,
    fate: Option<Fate>,
    tally: Tally,
    cut: bool,
}

// No clip has so many pictures that the test fails.
fn counted(tally: Tally, answer: Answer) -> Tally {
    if tally.pictures < u64::MAX {
        return salvaging::count(tally, answer);
    }
    tally
}

// Block n, by its answer and whether its picture is finished: it goes to the new clip, or to the log.
fn write<I, O: Write, E: Write>(
    streams: &mut Streams<I, O, E>,
    n: u64,
    clip: u16,
    before: State,
    received: Received,
    fate: Option<Fate>,
    block: &[u8; 512],
) -> Result<State, Failure> {
    let answer = received.answer;
    let tally = before.tally;
    let later = salvaging::is_kept(fate);
    if salvaging::goes_on(answer, later) {
        put_renewed(streams, clip, tally.pictures, block)?;
    }
    let entries = salvaging::entries_for(n, tally, answer, later);
    say_all(streams, entries)?;
    Ok(State {
        receiver: received.next,
        fate,
        tally: counted(tally, answer),
        cut: salvage_log::cut_after(before.cut, entries),
    })
}

fn whole<F: Read + Seek, I, O: Write, E: Write>(
    streams: &mut Streams<I, O, E>,
    n: u64,
    file: &mut F,
    ahead: &mut F,
    clip: u16,
    before: State,
    block: &[u8; 512],
    collection: &mut [u8],
    first: &mut [u8],
    second: &mut [u8],
    collection_ahead: &mut [u8],
    first_ahead: &mut [u8],
    second_ahead: &mut [u8],
) -> Result<State, Failure> {
    let received = receiver::receive(before.receiver, block, collection, first, second);
    let fate = settle(
        file,
        ahead,
        before.fate,
        received,
        collection,
        first,
        second,
        collection_ahead,
        first_ahead,
        second_ahead,
    )?;
    write(streams, n, clip, before, received, fate, block)
}

// ---- from the first block to the last

fn refused<I, O, E: Write>(
    streams: &mut Streams<I, O, E>,
    reason: Reason,
) -> Result<Ended, Failure> {
    let mut text = [0u8; 128];
    let count = salvage_log::refused(reason, &mut text);
    account::going::written(account::streams::say(streams, &text[..count]))?;
    Ok(Ended {
        cut: false,
        count: 0,
    })
}

// Nothing says that the file ends, so the loop counts its turns.
fn all<F: Read + Seek, I, O: Write, E: Write>(
    streams: &mut Streams<I, O, E>,
    file: &mut F,
    ahead: &mut F,
    clip: u16,
    opened: Receiver,
    collection: &mut [u8],
    first: &mut [u8],
    second: &mut [u8],
    collection_ahead: &mut [u8],
    first_ahead: &mut [u8],
    second_ahead: &mut [u8],
) -> Result<Ended, Failure> {
    let mut state = State {
        receiver: opened,
        fate: None,
        tally: Tally {
            pictures: 0,
            next: 0,
        },
        cut: false,
    };
    for n in 0..u64::MAX {
        let mut block = [0u8; 512];
        if !read_block(file, &mut block)? {
            break;
        }
        state = whole(
            streams,
            n,
            file,
            ahead,
            clip,
            state,
            &block,
            collection,
            first,
            second,
            collection_ahead,
            first_ahead,
            second_ahead,
        )?;
    }
    Ok(Ended {
        cut: state.cut,
        count: state.tally.pictures,
    })
}

// Whether anything is kept is settled first.
fn begin<F: Read + Seek, I, O: Write, E: Write>(
    streams: &mut Streams<I, O, E>,
    file: &mut F,
    ahead: &mut F,
    clip: u16,
    opened: Receiver,
    collection: &mut [u8],
    first: &mut [u8],
    second: &mut [u8],
    collection_ahead: &mut [u8],
    first_ahead: &mut [u8],
    second_ahead: &mut [u8],
) -> Result<Ended, Failure> {
    if find(
        ahead,
        None,
        opened,
        collection_ahead,
        first_ahead,
        second_ahead,
    )? {
        return all(
            streams,
            file,
            ahead,
            clip,
            opened,
            collection,
            first,
            second,
            collection_ahead,
            first_ahead,
            second_ahead,
        );
    }
    refused(streams, Reason::NoneKept)
}

// The buffers have room for any size.
fn run<F: Read + Seek, I, O: Write, E: Write>(
    streams: &mut Streams<I, O, E>,
    kind: Kind,
    file: &mut F,
    ahead: &mut F,
    clip: u16,
    opened: Receiver,
) -> Result<Ended, Failure> {
    let size = coding::size_of(kind);
    let bytes = size::collection_length(size);
    let samples = size::store_length(size);
    let mut collection = [0u8; 33000];
    let mut first = [0u8; 152064];
    let mut second = [0u8; 152064];
    let mut collection_ahead = [0u8; 33000];
    let mut first_ahead = [0u8; 152064];
    let mut second_ahead = [0u8; 152064];
    begin(
        streams,
        file,
        ahead,
        clip,
        opened,
        &mut collection[..bytes],
        &mut first[..samples],
        &mut second[..samples],
        &mut collection_ahead[..bytes],
        &mut first_ahead[..samples],
        &mut second_ahead[..samples],
    )
}

// ---- the list's length

// Whether it is whole blocks; the file then stands at its beginning. A folder can be opened and has a length, but can't be read.
fn measure<F: Read + Seek>(file: &mut F) -> Result<bool, Failure> {
    let mut block = [0u8; 512];
    let filled = account::input::fill(file, &mut block);
    if let Some(why) = filled.failure {
        return Err(Failure::Unread(why));
    }
    let end = go_to(file, SeekFrom::End(0))?;
    go_to(file, SeekFrom::Start(0))?;
    Ok(end % 512 == 0)
}

fn opened_as<F: Read + Seek, I, O: Write, E: Write>(
    streams: &mut Streams<I, O, E>,
    kind: Kind,
    old: u16,
    new: u16,
    file: &mut F,
    ahead: &mut F,
) -> Result<Ended, Failure> {
    match standing::open(old, kind) {
        Err(why) => { refused(streams, why.reason) }
        Ok(receiver) => {
            if new == 0 {
                return refused(streams, Reason::BlockField);
            }
            run(streams, kind, file, ahead, new, receiver)
        }
    }
}

// The file is opened twice, once for each receiver.
fn over<F: Read + Seek, I, O: Write, E: Write>(
    streams: &mut Streams<I, O, E>,
    kind: Kind,
    old: u16,
    new: u16,
    file: &mut F,
    ahead: &mut F,
) -> Result<Ended, Failure> {
    if measure(ahead)? {
        return opened_as(streams, kind, old, new, file, ahead);
    }
    refused(streams, Reason::Length)
}

// Why the run ended before the list did.
fn say_failure<I, O, E: Write>(streams: &mut Streams<I, O, E>, failure: Failure) {
    match failure {
        Failure::Misnamed => {
            let _ = account::streams::say(
                streams,
                b"usage: salvage qcif|cif|h263-sqcif|h263-qcif|h263-cif OLD NEW BLOCKS > NEWBLOCKS 2> LOG, with OLD and NEW from 1 to 65535\n",
            );
        }
        Failure::Unread(why) => {
            account::streams::fail(streams, b"salvage: the blocks could not be read", Some(why));
        }
        Failure::Unwritten(why) => {
            account::streams::fail(
                streams,
                b"salvage: the new clip could not be written",
                Some(why),
            );
        }
    }
}

// ---- the words

// A path that is no text names no file that std can open: 84 is EILSEQ.
fn opened<R: Files>(rt: &R, path: &[u8]) -> io::Result<R::File> {
    match str::from_utf8(path) {
        Ok(name) => fs::open(rt, name),
        Err(_) => Err(io::Error::from_raw_os_error(84)),
    }
}

// The list twice, to be read in two places.
fn twice<R: Files>(rt: &R, path: &[u8]) -> io::Result<(R::File, R::File)> {
    let file = opened(rt, path)?;
    let ahead = opened(rt, path)?;
    Ok((file, ahead))
}

// A file that can't be opened is named by its path.
fn of_file<R: Files, I, O: Write, E: Write>(
    rt: &R,
    streams: &mut Streams<I, O, E>,
    kind: Kind,
    old: u16,
    new: u16,
    path: &[u8],
) -> Result<Ended, Failure> {
    match twice(rt, path) {
        Ok((mut file, mut ahead)) => {
            let end = over(streams, kind, old, new, &mut file, &mut ahead);
            if let Err(failure) = end {
                say_failure(streams, failure);
            }
            end
        }
        Err(why) => {
            account::streams::fail(streams, path, Some(why));
            Err(Failure::Unread(why))
        }
    }
}

// How many words there are, the program's own name among them, and the four after it.
fn of_words<R: Files, I, O: Write, E: Write>(
    rt: &R,
    streams: &mut Streams<I, O, E>,
    count: usize,
    kind: &[u8],
    old: &[u8],
    new: &[u8],
    path: &[u8],
) -> Result<Ended, Failure> {
    if count == 5 && 0 < path.len() {
        if let (Some(named), Some(from), Some(to)) = (
            arguments::kind_named(kind),
            arguments::clip_named(old),
            arguments::clip_named(new),
        ) {
            return of_file(rt, streams, named, from, to, path);
        }
    }
    say_failure(streams, Failure::Misnamed);
    Err(Failure::Misnamed)
}

fn main(rt: HostRuntime) -> ExitCode {
    let mut streams = account::streams::over(rt.stdin(), rt.stdout(), rt.stderr());
    let mut kind = [0u8; 16];
    let mut old = [0u8; 16];
    let mut new = [0u8; 16];
    let mut path = [0u8; 4096];
    let kinds = account::arg(&rt, 1, &mut kind);
    let olds = account::arg(&rt, 2, &mut old);
    let news = account::arg(&rt, 3, &mut new);
    let paths = account::arg(&rt, 4, &mut path);
    let end = of_words(
        &rt,
        &mut streams,
        account::arg_count(&rt),
        &kind[..kinds],
        &old[..olds],
        &new[..news],
        &path[..paths],
    );
    account::tell_over(&streams, end)
}
