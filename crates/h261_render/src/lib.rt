// From a description and a reference to a store.
#![tactic(auto)]

ghost use Rattle.std.specs.Prelude.{◌≡◌, ◌+◌, ◌/◌, ◌%◌, ◌<◌, ◌≤◌, eqb, get_or, length};
ghost use Rattle.laws.specs.Choice.{pick};
ghost use Rattle.samples.specs.Content.{content_values};
ghost use Rattle.samples.specs.Wrote.{Macroblock};
ghost use Rattle.h261_words.specs.Words.{has_mquant};
ghost use Rattle.h261_groups.specs.Format.{size_of};
ghost use Rattle.h261_groups.specs.Order.{row_of, column_of};
ghost use Rattle.layout.specs.Flat.{flat};
ghost use Rattle.h261_description.specs.Fields.{quantiser_of};
ghost use Rattle.h261_render.specs.Sample.{prediction_of, content_of, rendered};
ghost use Rattle.h261_render.specs.Turn.{PictureOf, TurnOf};

use h261_groups::Format;

mod block;
mod macroblock;

// What a macroblock that is sent is predicted from: nothing, the reference, or the reference filtered.
#[derive(Clone, Copy, PartialEq, Eq, Debug)]
pub enum Prediction {
    Intra,
    Inter,
    Filtered,
}

fn prediction_of(kind: u8) -> Prediction
    requires { (1 ≤ kind) × (kind ≤ 10) }
    ensures { result ≡ prediction_of kind }
{
    if kind < 3 {
        Prediction::Intra
    } else if kind < 8 {
        Prediction::Inter
    } else {
        Prediction::Filtered
    }
}

// The quantiser that stood before a macroblock: its group's where it is the first, else the one of the macroblock before.
fn stood(head: &[u8], macroblock: usize, last: u8) -> u8
    requires { 3 + macroblock / 33 < length head.now }
    ensures { result ≡ pick (eqb (macroblock % 33) 0) (get_or head.now (3 + macroblock / 33) 0) last }
{
    if macroblock % 33 == 0 {
        head[3 + macroblock / 33]
    } else {
        last
    }
}

// The quantiser that stands at a macroblock.
fn stands(kind: u8, mquant: u8, before: u8) -> u8
    ensures { result ≡ pick (has_mquant kind) mquant before }
{
    if h261_words::kind::has_mquant(kind as u16) {
        return mquant;
    }
    before
}

// One macroblock of the description, in sending order: its quantiser, which then stands.
fn turn(
    format: Format,
    head: &[u8],
    macroblocks: &[u8],
    levels: &[u8],
    reference: &[u8],
    store: &mut [u8],
    n: usize,
    last: u8,
) -> u8
    requires { TurnOf format (flat head.now macroblocks.now levels.now) n last (length reference.now) (length store.old) }
    ensures quantiser { result ≡ quantiser_of (flat head.now macroblocks.now levels.now) n }
    ensures drawn { Macroblock (size_of format) (row_of format n) (column_of format n) (content_values (size_of format) reference.now (content_of format (flat head.now macroblocks.now levels.now) reference.now n)) store.old store.new }
{
    let row = h261_groups::order::row(format, n);
    let column = h261_groups::order::column(format, n);
    let at = n * 4;
    let kind = macroblocks[at];
    let before = stood(head, n, last);
    let quantiser = stands(kind, macroblocks[at + 1], before);
    if kind == 0 {
        let size = h261_groups::size_of(format);
        samples::macroblock::kept(size, reference, store, row, column);
        return quantiser;
    }
    let predicted = prediction_of(kind);
    macroblock::sent(
        format,
        reference,
        store,
        row,
        column,
        predicted,
        macroblocks[at + 2],
        macroblocks[at + 3],
        quantiser,
        levels,
        n * 384,
    );
    quantiser
}

// Every sample of the store is the one that the valid description gives over the reference.
pub fn render(
    format: Format,
    head: &[u8],
    macroblocks: &[u8],
    levels: &[u8],
    reference: &[u8],
    store: &mut [u8],
)
    requires { PictureOf format (flat head.now macroblocks.now levels.now) (length reference.now) (length store.old) }
    ensures { store.new ≡ rendered format (flat head.now macroblocks.now levels.now) reference.now }
{
    let count = h261_groups::order::macroblock_count(format);
    let mut quantiser: u8 = 0;
    for n in 0..count {
        quantiser = turn(
            format,
            head,
            macroblocks,
            levels,
            reference,
            store,
            n,
            quantiser,
        );
    }
}
