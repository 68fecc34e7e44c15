// What a run over the blocks of a clip has met.
ghost use Rattle.std.specs.Prelude.{◌≡◌, eqb};
ghost use Rattle.laws.specs.Choice.{either, opposite};
ghost use Rattle.account.specs.Blocks.{fresh_met, one_more, finished, met_after, cut_short, end_of};

use crate::Ended;
use standing::Answer;

// How many pictures were finished; whether a picture has begun and isn't finished; whether something was cut.
#[derive(Clone, Copy, PartialEq, Eq)]
pub struct Met {
    pub pictures: u64,
    pub begun: bool,
    pub cut: bool,
}

pub fn open() -> Met
    ensures { result ≡ fresh_met }
{
    Met {
        pictures: 0,
        begun: false,
        cut: false,
    }
}

// Counts stop at the greatest number of 64 bits.
fn one_more(n: u64) -> u64
    ensures { result ≡ one_more n }
{
    if n < 18446744073709551615 {
        return n + 1;
    }
    n
}

// Whether something was cut before, or is by this picture: it is the next one where as many were finished before as its number says.
fn cut_by(met: Met, picture: u32) -> bool
    ensures { result ≡ either (opposite (eqb picture met.pictures)) met.cut }
{
    if picture as u64 == met.pictures {
        return met.cut;
    }
    true
}

#[tactic(auto, unfolding(crate::specs::Blocks::finished))]
fn finish(met: Met, picture: u32) -> Met
    ensures { result ≡ finished met picture }
{
    Met {
        pictures: one_more(met.pictures),
        begun: false,
        cut: cut_by(met, picture),
    }
}

#[tactic(auto, unfolding(crate::specs::Blocks::finished, crate::specs::Blocks::met_after))]
pub fn after(met: Met, answer: Answer) -> Met
    ensures { result ≡ met_after met answer }
{
    let mut next = met;
    match answer {
        Answer::Old(_, _) => next,
        Answer::Taken(_, _) => {
            next.begun = true;
            next
        }
        Answer::Lost => {
            next.cut = true;
            next
        }
        Answer::Picture(picture, _) => finish(met, picture),
        Answer::Refused(_) => {
            next.cut = true;
            next
        }
    }
}

// The input ended inside a block.
pub fn short(met: Met) -> Met
    ensures { result ≡ cut_short met }
{
    let mut next = met;
    next.cut = true;
    next
}

#[tactic(auto, unfolding(crate::specs::Blocks::end_of))]
pub fn end(met: Met) -> Ended
    ensures { result ≡ end_of met }
{
    Ended {
        cut: met.cut || met.begun,
        count: met.pictures,
    }
}
