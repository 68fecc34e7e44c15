// The log of a salvage as text, a line for each entry, and whether it says that something was cut.
#![tactic(auto)]

ghost use Rattle.std.specs.Prelude.{◌≡◌, length};
ghost use Rattle.io.specs.Counts.{IsPrefixLen};
ghost use Rattle.laws.specs.Choice.{either};
ghost use Rattle.refusals.specs.Number.{number};
ghost use Rattle.standing.specs.Answered.{said};
ghost use Rattle.salvaging.specs.Log.{told_entry, told_entries};
ghost use Rattle.text.specs.Text.{over};
ghost use Rattle.salvage_log.specs.Lines.{kept_text, skipped_text, dropped_text, entry_text, refused_text};
ghost use Rattle.salvage_log.specs.Cuts.{answer_cuts, entry_cuts, cut_after};

use refusals::Reason;
use salvaging::{Entries, Entry};
use standing::Answer;
use text::{put, put_number};

// ---- lines. Each stands at the start of `out`, and its length is given back.

// "4 kept 2 as 1".
fn kept_line(block: u64, old: u64, new: u64, out: &mut [u8; 128]) -> usize
    ensures prefix_len { IsPrefixLen result out.new }
    ensures value { result ≡ length (kept_text block old new) }
    ensures out_after { out.new ≡ over (kept_text block old new) out.old }
{
    let numbered = put_number(block, 0, out);
    let named = put(b" kept ", numbered, out);
    let before = put_number(old, named, out);
    let parted = put(b" as ", before, out);
    let after = put_number(new, parted, out);
    put(b"\n", after, out)
}

// "4 skipped 1 to 1, ticks restart".
fn skipped_line(block: u64, first: u64, last: u64, out: &mut [u8; 128]) -> usize
    ensures prefix_len { IsPrefixLen result out.new }
    ensures value { result ≡ length (skipped_text block first last) }
    ensures out_after { out.new ≡ over (skipped_text block first last) out.old }
{
    let numbered = put_number(block, 0, out);
    let named = put(b" skipped ", numbered, out);
    let from = put_number(first, named, out);
    let parted = put(b" to ", from, out);
    let to = put_number(last, parted, out);
    put(b", ticks restart\n", to, out)
}

// "3 dropped old 2.0".
fn dropped_line(block: u64, answer: Answer, out: &mut [u8; 128]) -> usize
    ensures prefix_len { IsPrefixLen result out.new }
    ensures value { result ≡ length (dropped_text block (said answer)) }
    ensures out_after { out.new ≡ over (dropped_text block (said answer)) out.old }
{
    let numbered = put_number(block, 0, out);
    let named = put(b" dropped", numbered, out);
    let answered = listing::put_answer(answer, named, out);
    put(b"\n", answered, out)
}

pub fn line(entry: Entry, out: &mut [u8; 128]) -> usize
    ensures prefix_len { IsPrefixLen result out.new }
    ensures value { result ≡ length (entry_text (told_entry entry)) }
    ensures out_after { out.new ≡ over (entry_text (told_entry entry)) out.old }
{
    match entry {
        Entry::Kept(block, old, new) => kept_line(block, old, new, out),
        Entry::Skipped(block, first, last) => skipped_line(block, first, last, out),
        Entry::Dropped(block, answer) => dropped_line(block, answer, out),
    }
}

// The whole log of a salvage that is refused.
pub fn refused(reason: Reason, out: &mut [u8; 128]) -> usize
    ensures prefix_len { IsPrefixLen result out.new }
    ensures value { result ≡ length (refused_text (number reason)) }
    ensures out_after { out.new ≡ over (refused_text (number reason)) out.old }
{
    let named = put(b"refused ", 0, out);
    let numbered = put_number(refusals::number_of(reason) as u64, named, out);
    put(b"\n", numbered, out)
}

// ---- cuts

// Whether a dropped block is a cut: not where it came before, or too late.
fn answer_cuts(answer: Answer) -> bool
    ensures { result ≡ answer_cuts (said answer) }
{
    match answer {
        Answer::Old(_, _) => false,
        Answer::Taken(_, _) => true,
        Answer::Lost => true,
        Answer::Picture(_, _) => true,
        Answer::Refused(_) => true,
    }
}

fn entry_cuts(entry: Entry) -> bool
    ensures { result ≡ entry_cuts (told_entry entry) }
{
    match entry {
        Entry::Kept(_, _, _) => false,
        Entry::Skipped(_, _, _) => true,
        Entry::Dropped(_, answer) => answer_cuts(answer),
    }
}

fn cut_by(cut: bool, entry: Entry) -> bool
    ensures { result ≡ either cut (entry_cuts (told_entry entry)) }
{
    if cut {
        return true;
    }
    entry_cuts(entry)
}

// Whether something was cut, with a block's entries after those before.
pub fn cut_after(cut: bool, entries: Entries) -> bool
    ensures { result ≡ cut_after cut (told_entries entries) }
{
    match entries {
        Entries::Nothing => cut,
        Entries::One(entry) => cut_by(cut, entry),
        Entries::Two(first, second) => cut_by(cut_by(cut, first), second),
    }
}
