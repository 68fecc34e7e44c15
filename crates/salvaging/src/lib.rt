// A damaged list of blocks becomes a new clip: the pictures that a fresh receiver finishes, numbered from 0 on, and a log of what was kept, skipped and dropped.
//
// Whether a block that is taken goes to the new clip is known once its picture is finished or dropped: a second receiver runs ahead to there. `salvage` does so over a lent list; the program
// over a file, by the same steps.
#![tactic(auto)]

ghost use Rattle.std.specs.Prelude.{◌≡◌, true, Err, [], ◌∷◌, ◌++◌, ◌+◌, ◌*◌, ◌%◌, ◌^◌, ◌≤◌, ◌<◌, length};
ghost use Rattle.std.proofs.lemmas.List.Edits.{sets};
ghost use Rattle.refusals.specs.Number.{refusal};
ghost use Rattle.refusals.specs.Told.{numbers_of};
ghost use Rattle.laws.specs.Choice.{pick, one_of};
ghost use Rattle.coding.specs.Kind.{kind_size};
ghost use Rattle.standing.specs.Answered.{said, refused};
ghost use Rattle.standing.specs.Receive.{is_lost, buffers};
ghost use Rattle.salvaging.specs.Kept.{kept_numbers, goes_on};
ghost use Rattle.salvaging.specs.Log.{entries_for, run_before, kept, laid_tick, laid_answer, laid_entry, laid_log, told_entry, told_entries};
ghost use Rattle.salvaging.specs.Clip.{joined};
ghost use Rattle.salvaging.specs.Step.{tally_after, is_known, is_kept, asked_by, still_known, Collects, still_collects, looked_at};
ghost use Rattle.salvaging.specs.Going.{finishes_one, any_kept, answers_from, fate_after, written_by, InList, WriteRoom, SettleRoom, RewriteRoom, RewriteDoes, SalvageRoom, BuffersIn};
ghost use Rattle.salvaging.specs.Salvage.{lengths_named, SalvageDoes};

use coding::Kind;
use refusals::{Reason, Refusal};
use size::Size;
use standing::{Answer, Progress, Received, Receiver, Standing};
use ticks::Tick;

// ---- a block

// How many pictures are kept so far, and the number after the last one's.
#[derive(Clone, Copy, PartialEq, Eq)]
pub struct Tally {
    pub pictures: u64,
    pub next: u64,
}

// Whether the block goes to the new clip; `later` says of one that is taken whether its picture is finished later.
pub fn goes_on(answer: Answer, later: bool) -> bool
    ensures { result ≡ goes_on (said answer) later }
{
    match answer {
        Answer::Picture(_, _) => true,
        Answer::Taken(_, _) => later,
        Answer::Old(_, _) => false,
        Answer::Lost => false,
        Answer::Refused(_) => false,
    }
}

// The pictures so far, this block included.
pub fn count(tally: Tally, answer: Answer) -> Tally
    requires { tally.pictures < 18446744073709551615 }
    ensures { result ≡ tally_after tally (said answer) }
{
    match answer {
        Answer::Picture(old, _) => Tally {
            pictures: tally.pictures + 1,
            next: u64::from(old) + 1,
        },
        Answer::Taken(_, _) => tally,
        Answer::Old(_, _) => tally,
        Answer::Lost => tally,
        Answer::Refused(_) => tally,
    }
}

// ---- its entries

// A block is named by its number in the list. A kept picture's old number and its new one; the first and the last number of a run; a dropped block's answer.
#[derive(Clone, Copy)]
pub enum Entry {
    Kept(u64, u64, u64),
    Skipped(u64, u64, u64),
    Dropped(u64, Answer),
}

// What a block adds to the log: none, one or two. Not two `Option`s, of which the second could stand alone: entries that are told alike are the same (`EntriesToldOnce`).
#[derive(Clone, Copy)]
pub enum Entries {
    Nothing,
    One(Entry),
    Two(Entry, Entry),
}

// Of the block that finishes a picture: its run, if numbers are skipped, and the picture.
fn kept_entries(block: u64, tally: Tally, old: u64) -> Entries
    ensures { told_entries result ≡ run_before block tally.next old ++ (kept block old tally.pictures ∷ []) }
{
    let picture = Entry::Kept(block, old, tally.pictures);
    let next = tally.next;
    if next < old {
        return Entries::Two(Entry::Skipped(block, next, old - 1), picture);
    }
    Entries::One(picture)
}

// Of any block.
pub fn entries_for(block: u64, tally: Tally, answer: Answer, later: bool) -> Entries
    ensures { told_entries result ≡ entries_for block tally.pictures tally.next (said answer) later }
{
    match answer {
        Answer::Picture(old, _) => kept_entries(block, tally, u64::from(old)),
        Answer::Taken(_, _) => {
            if later {
                return Entries::Nothing;
            }
            Entries::One(Entry::Dropped(block, answer))
        }
        Answer::Old(_, _) => Entries::One(Entry::Dropped(block, answer)),
        Answer::Lost => Entries::One(Entry::Dropped(block, answer)),
        Answer::Refused(_) => Entries::One(Entry::Dropped(block, answer)),
    }
}

// ---- entries as numbers

fn laid_tick(block: u64, n: u32, tick: Tick) -> [u64; 5]
    ensures { result ≡ laid_tick block n tick }
{
    match tick {
        Tick::Exact(at) => [block, 6, u64::from(n), u64::from(at), 0],
        Tick::Estimated(at) => [block, 6, u64::from(n), u64::from(at), 1],
    }
}

fn laid_refusal(block: u64, why: Refusal) -> [u64; 5]
    ensures { result ≡ laid_answer block (refused (numbers_of why)) }
{
    let reason = why.reason;
    let number = refusals::number_of(reason);
    let table = refusals::table_of(reason);
    [
        block,
        5,
        u64::from(number),
        why.place as u64,
        u64::from(table),
    ]
}

fn laid_answer(block: u64, answer: Answer) -> [u64; 5]
    ensures { result ≡ laid_answer block (said answer) }
{
    match answer {
        Answer::Taken(n, part) => [block, 2, u64::from(n), u64::from(part), 0],
        Answer::Old(n, part) => [block, 3, u64::from(n), u64::from(part), 0],
        Answer::Lost => [block, 4, 0, 0, 0],
        Answer::Refused(why) => laid_refusal(block, why),
        Answer::Picture(n, tick) => laid_tick(block, n, tick),
    }
}

// Five numbers: the block, what it is, and what belongs to it.
pub fn laid(entry: Entry) -> [u64; 5]
    ensures { result ≡ laid_entry (told_entry entry) }
{
    match entry {
        Entry::Kept(block, old, new) => [block, 0, old, new, 0],
        Entry::Skipped(block, first, last) => [block, 1, first, last, 0],
        Entry::Dropped(block, answer) => laid_answer(block, answer),
    }
}

// ---- the fate of a picture that is collected

// What is known of a picture: whether it is finished.
#[derive(Clone, Copy, PartialEq, Eq)]
pub struct Fate {
    pub picture: u32,
    pub kept: bool,
}

fn is_known(fate: Option<Fate>, picture: u32) -> bool
    ensures { result ≡ is_known fate picture }
{
    match fate {
        Some(fate) => fate.picture == picture,
        None => false,
    }
}

pub fn is_kept(fate: Option<Fate>) -> bool
    ensures { result ≡ is_kept fate }
{
    match fate {
        Some(fate) => fate.kept,
        None => false,
    }
}

// The picture whose fate is to be found out.
pub fn asks(fate: Option<Fate>, answer: Answer) -> Option<u32>
    ensures { result ≡ asked_by fate (said answer) }
{
    match answer {
        Answer::Taken(picture, _) => {
            if is_known(fate, picture) {
                return None;
            }
            Some(picture)
        }
        Answer::Picture(_, _) => None,
        Answer::Old(_, _) => None,
        Answer::Lost => None,
        Answer::Refused(_) => None,
    }
}

// What stays known once the block is answered.
pub fn still(fate: Option<Fate>, answer: Answer) -> Option<Fate>
    ensures { result ≡ still_known fate (said answer) }
{
    match answer {
        Answer::Picture(_, _) => None,
        Answer::Taken(_, _) => fate,
        Answer::Old(_, _) => fate,
        Answer::Lost => fate,
        Answer::Refused(_) => fate,
    }
}

// What a block ahead comes to for a picture that was collected.
#[derive(Clone, Copy, PartialEq, Eq)]
pub enum Sight {
    Finished,
    Gone,
    Collecting,
}

fn is_lost(standing: Standing) -> bool
    ensures { result ≡ is_lost standing }
{
    match standing {
        Standing::Lost => true,
        Standing::Catching => false,
        Standing::InStep(_) => false,
    }
}

fn collects(picture: u32, progress: Progress) -> bool
    ensures { result ≡ still_collects picture progress }
{
    let wanted = progress.wanted;
    let standing = progress.standing;
    if wanted.picture == picture {
        return !is_lost(standing);
    }
    false
}

fn look_on(picture: u32, progress: Progress) -> Sight
    ensures { result ≡ pick (still_collects picture progress) Sight.Collecting Sight.Gone }
{
    if collects(picture, progress) {
        return Sight::Collecting;
    }
    Sight::Gone
}

// By the second receiver's answer, and how it goes on.
pub fn look(picture: u32, received: Received) -> Sight
    ensures { result ≡ looked_at picture (said received.answer) received.next.progress }
{
    let answer = received.answer;
    let receiver = received.next;
    let progress = receiver.progress;
    match answer {
        Answer::Picture(finished, _) => {
            if finished == picture {
                return Sight::Finished;
            }
            Sight::Gone
        }
        Answer::Taken(_, _) => look_on(picture, progress),
        Answer::Old(_, _) => look_on(picture, progress),
        Answer::Lost => look_on(picture, progress),
        Answer::Refused(_) => look_on(picture, progress),
    }
}

// ---- a list

// The entry's numbers from `at` on.
fn put_entry(entry: Entry, log: &mut [u64], at: usize)
    requires { at + 5 ≤ length log.old }
    ensures { log.new ≡ sets log.old at (laid_entry (told_entry entry)) }
{
    let five = laid(entry);
    log[at] = five[0];
    log[at + 1] = five[1];
    log[at + 2] = five[2];
    log[at + 3] = five[3];
    log[at + 4] = five[4];
}

// The entries go after those that are there; how many there are then.
fn enter(entries: Entries, log: &mut [u64], entered: usize) -> usize
    requires { 5 * (entered + length (told_entries entries)) ≤ length log.old }
    ensures value { result ≡ entered + length (told_entries entries) }
    ensures log_after { log.new ≡ sets log.old (5 * entered) (laid_log (told_entries entries)) }
{
    match entries {
        Entries::Nothing => entered,
        Entries::One(entry) => {
            put_entry(entry, log, 5 * entered);
            entered + 1
        }
        Entries::Two(first, second) => {
            let at = 5 * entered;
            put_entry(first, log, at);
            put_entry(second, log, at + 5);
            entered + 2
        }
    }
}

// A block that goes on is written after those that are there; how many there are then.
fn write(goes: bool, clip: u16, picture: u64, block: &[u8], out: &mut [u8], written: usize) -> usize
    requires { WriteRoom goes picture block.now out.old written }
    ensures value { result ≡ written + length (written_by goes clip picture block.now) }
    ensures out_after { out.new ≡ sets out.old (512 * written) (joined (written_by goes clip picture block.now)) }
{
    if goes {
        let at = 512 * written;
        let end = at + 512;
        vault::renew(clip, picture as u32, block, &mut out[at..end]);
        return written + 1;
    }
    written
}

fn is_picture(answer: Answer) -> bool
    ensures { result ≡ finishes_one (said answer) }
{
    match answer {
        Answer::Picture(_, _) => true,
        Answer::Taken(_, _) => false,
        Answer::Old(_, _) => false,
        Answer::Lost => false,
        Answer::Refused(_) => false,
    }
}

// Whether a receiver finishes a picture of these blocks.
fn any_kept(
    opened: Receiver,
    blocks: &[u8],
    collection: &mut [u8],
    first: &mut [u8],
    second: &mut [u8],
) -> bool
    requires { length blocks.now % 512 ≡ 0 }
    ensures { result ≡ any_kept (answers_from opened (buffers collection.old first.old second.old) blocks.now 0) }
{
    let mut receiver = opened;
    for block in blocks.chunks_exact(512) {
        let received = receiver::receive(receiver, block, collection, first, second);
        let answer = received.answer;
        if is_picture(answer) {
            return true;
        }
        receiver = received.next;
    }
    false
}

// Whether a receiver that collects a picture finishes it, with the blocks from `from` on.
fn finishes(
    begun: Receiver,
    picture: u32,
    blocks: &[u8],
    from: usize,
    collection: &mut [u8],
    first: &mut [u8],
    second: &mut [u8],
) -> bool
    requires { (InList blocks.now from) × (Collects picture begun.progress) }
    ensures { result ≡ one_of (kept_numbers (answers_from begun (buffers collection.old first.old second.old) blocks.now from)) picture }
{
    let mut receiver = begun;
    for block in blocks[from..].chunks_exact(512) {
        let received = receiver::receive(receiver, block, collection, first, second);
        match look(picture, received) {
            Sight::Finished => return true,
            Sight::Gone => return false,
            Sight::Collecting => receiver = received.next,
        }
    }
    false
}

// Where a block asks for its picture's fate, the second receiver goes on from the first one's state.
fn settled(
    fate: Option<Fate>,
    received: Received,
    blocks: &[u8],
    from: usize,
    collection: &[u8],
    first: &[u8],
    second: &[u8],
    collection_ahead: &mut [u8],
    first_ahead: &mut [u8],
    second_ahead: &mut [u8],
) -> Option<Fate>
    requires { SettleRoom received blocks.now from (buffers collection.now first.now second.now) (buffers collection_ahead.old first_ahead.old second_ahead.old) }
    ensures { result ≡ fate_after fate (said received.answer) (answers_from received.next (buffers collection.now first.now second.now) blocks.now from) }
{
    let answer = received.answer;
    let receiver = received.next;
    match asks(fate, answer) {
        None => still(fate, answer),
        Some(picture) => {
            collection_ahead.copy_from_slice(collection);
            first_ahead.copy_from_slice(first);
            second_ahead.copy_from_slice(second);
            let kept = finishes(
                receiver,
                picture,
                blocks,
                from,
                collection_ahead,
                first_ahead,
                second_ahead,
            );
            Some(Fate { picture, kept })
        }
    }
}

// How many pictures, blocks and entries were written.
#[derive(Clone, Copy, PartialEq, Eq)]
pub struct Salvaged {
    pub pictures: u64,
    pub blocks: usize,
    pub entries: usize,
}

// Block after block, where a picture is kept: each goes to the new clip, or to the log.
fn rewrite(
    opened: Receiver,
    clip: u16,
    blocks: &[u8],
    out: &mut [u8],
    log: &mut [u64],
    collection: &mut [u8],
    first: &mut [u8],
    second: &mut [u8],
    collection_ahead: &mut [u8],
    first_ahead: &mut [u8],
    second_ahead: &mut [u8],
) -> Result<Salvaged, Refusal>
    requires { RewriteRoom opened blocks.now out.old log.old (buffers collection.old first.old second.old) (buffers collection_ahead.old first_ahead.old second_ahead.old) }
    ensures { RewriteDoes clip blocks.now (answers_from opened (buffers collection.old first.old second.old) blocks.now 0) out.old log.old result out.new log.new }
{
    let mut receiver = opened;
    let mut fate: Option<Fate> = None;
    let mut tally = Tally {
        pictures: 0,
        next: 0,
    };
    let mut written: usize = 0;
    let mut entered: usize = 0;
    for n in 0..blocks.len() / 512 {
        let at = 512 * n;
        let end = at + 512;
        let block = &blocks[at..end];
        let received = receiver::receive(receiver, block, collection, first, second);
        fate = settled(
            fate,
            received,
            blocks,
            end,
            collection,
            first,
            second,
            collection_ahead,
            first_ahead,
            second_ahead,
        );
        let answer = received.answer;
        let later = is_kept(fate);
        let goes = goes_on(answer, later);
        written = write(goes, clip, tally.pictures, block, out, written);
        let entries = entries_for(n as u64, tally, answer, later);
        entered = enter(entries, log, entered);
        tally = count(tally, answer);
        receiver = received.next;
    }
    Ok(Salvaged {
        pictures: tally.pictures,
        blocks: written,
        entries: entered,
    })
}

fn refused(reason: Reason) -> Result<Salvaged, Refusal>
    ensures { result ≡ Err (refusal reason 0) }
{
    Err(Refusal { reason, place: 0 })
}

// With the buffers of two receivers, lent as zeros in the kind's lengths. Whether anything is kept is settled first.
fn salvage_in(
    kind: Kind,
    old: u16,
    new: u16,
    blocks: &[u8],
    out: &mut [u8],
    log: &mut [u64],
    collection: &mut [u8],
    first: &mut [u8],
    second: &mut [u8],
    collection_ahead: &mut [u8],
    first_ahead: &mut [u8],
    second_ahead: &mut [u8],
) -> Result<Salvaged, Refusal>
    requires { SalvageRoom kind blocks.now out.old log.old (buffers collection.old first.old second.old) (buffers collection_ahead.old first_ahead.old second_ahead.old) }
    ensures { SalvageDoes kind old new blocks.now out.old log.old result out.new log.new }
{
    let receiver = standing::open(old, kind)?;
    if new == 0 {
        return refused(Reason::BlockField);
    }
    if !any_kept(
        receiver,
        blocks,
        collection_ahead,
        first_ahead,
        second_ahead,
    ) {
        return refused(Reason::NoneKept);
    }
    rewrite(
        receiver,
        new,
        blocks,
        out,
        log,
        collection,
        first,
        second,
        collection_ahead,
        first_ahead,
        second_ahead,
    )
}

// ---- scratch by size

// With scratch of these lengths.
fn salvage_within<const COLLECTION: usize, const STORE: usize>(
    kind: Kind,
    old: u16,
    new: u16,
    blocks: &[u8],
    out: &mut [u8],
    log: &mut [u64],
) -> Result<Salvaged, Refusal>
    requires named { lengths_named (length blocks.now) (length out.old) (length log.old) ≡ true }
    requires room { BuffersIn COLLECTION STORE (kind_size kind) }
    // An array of a parameter's length has to have a size.
    requires sizes { (COLLECTION < 2 ^ 20) × (STORE < 2 ^ 20) }
    ensures { SalvageDoes kind old new blocks.now out.old log.old result out.new log.new }
{
    let mut collection = [0u8; COLLECTION];
    let mut first = [0u8; STORE];
    let mut second = [0u8; STORE];
    let mut collection_ahead = [0u8; COLLECTION];
    let mut first_ahead = [0u8; STORE];
    let mut second_ahead = [0u8; STORE];
    let size = coding::size_of(kind);
    let parts = size::collection_length(size);
    let samples = size::store_length(size);
    salvage_in(
        kind,
        old,
        new,
        blocks,
        out,
        log,
        &mut collection[..parts],
        &mut first[..samples],
        &mut second[..samples],
        &mut collection_ahead[..parts],
        &mut first_ahead[..samples],
        &mut second_ahead[..samples],
    )
}

// The blocks of the old clip's list that are parts of finished pictures, as blocks of the new clip, into `out`, which has the list's length; what was kept, skipped and dropped into `log`, which has
// two entries of five numbers for each block.
pub fn salvage(
    kind: Kind,
    old: u16,
    new: u16,
    blocks: &[u8],
    out: &mut [u8],
    log: &mut [u64],
) -> Result<Salvaged, Refusal>
    ensures { SalvageDoes kind old new blocks.now out.old log.old result out.new log.new }
{
    let length = blocks.len();
    if length % 512 != 0 {
        return refused(Reason::Length);
    }
    if out.len() != length {
        return refused(Reason::Length);
    }
    if log.len() != 10 * (length / 512) {
        return refused(Reason::Length);
    }
    match coding::size_of(kind) {
        Size::SubQcif => salvage_within::<8500, 38016>(kind, old, new, blocks, out, log),
        Size::Qcif => salvage_within::<8500, 38016>(kind, old, new, blocks, out, log),
        Size::Cif => salvage_within::<33000, 152064>(kind, old, new, blocks, out, log),
    }
}
