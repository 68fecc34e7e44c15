// From a description and a reference to a store.
#![tactic(auto)]

ghost use Rattle.std.specs.Prelude.{◌≡◌, ◌+◌, ◌/◌, ◌%◌, ◌<◌, min, max, eqb, get_or, length};
ghost use Rattle.laws.specs.Choice.{pick, both};
ghost use Rattle.size.specs.Place.{macroblocks_across};
ghost use Rattle.samples.specs.Content.{content_values};
ghost use Rattle.samples.specs.Wrote.{Macroblock};
ghost use Rattle.layout.specs.Flat.{flat};
ghost use Rattle.h263_description.specs.Fields.{stands, quantiser_changed, quantiser_of};
ghost use Rattle.h263_render.specs.Sample.{content_of, rendered};
ghost use Rattle.h263_render.specs.Turn.{PictureOf, TurnOf};

use size::Size;

mod block;
mod macroblock;

// A number cut to a quantiser's range.
fn cut(number: usize) -> u8
    ensures { result ≡ min (max number 1) 31 }
{
    if number == 0 {
        return 1;
    }
    if 31 < number {
        return 31;
    }
    number as u8
}

// The quantiser that stood, changed by a DQUANT in two's complement: "the sum is cut to 1..31". 0, where there is none, changes nothing.
fn changed(quantiser: u8, dquant: u8) -> u8
    ensures { result ≡ quantiser_changed quantiser dquant }
{
    let sum = quantiser as usize + dquant as usize;
    if dquant < 128 {
        return cut(sum);
    }
    if sum < 256 {
        return 1;
    }
    cut(sum - 256)
}

// The quantiser that stood, unless a header that stands before a row's first macroblock sets it.
fn started(head: &[u8], row: usize, column: usize, last: u8) -> u8
    requires { 5 + row < length head.now }
    ensures { result ≡ pick (both (eqb column 0) (stands (get_or head.now (5 + row) 0))) (get_or head.now (5 + row) 0) last }
{
    if column != 0 {
        return last;
    }
    let gquant = head[5 + row];
    if gquant == 0 {
        return last;
    }
    gquant
}

// One macroblock of the description: its quantiser, which then stands.
fn turn(
    size: Size,
    head: &[u8],
    macroblocks: &[u8],
    levels: &[u8],
    reference: &[u8],
    store: &mut [u8],
    n: usize,
    last: u8,
) -> u8
    requires { TurnOf size (flat head.now macroblocks.now levels.now) n last (length reference.now) (length store.old) }
    ensures quantiser { result ≡ quantiser_of (macroblocks_across size) (flat head.now macroblocks.now levels.now) n }
    ensures drawn { Macroblock size (n / macroblocks_across size) (n % macroblocks_across size) (content_values size reference.now (content_of size (flat head.now macroblocks.now levels.now) reference.now n)) store.old store.new }
{
    let across = h263_description::across(size);
    let row = n / across;
    let column = n % across;
    let at = n * 4;
    let kind = macroblocks[at];
    let before = started(head, row, column, last);
    let quantiser = changed(before, macroblocks[at + 1]);
    if kind == 0 {
        samples::macroblock::kept(size, reference, store, row, column);
        return quantiser;
    }
    let intra = h263_description::kind::is_intra(kind);
    macroblock::sent(
        size,
        reference,
        store,
        row,
        column,
        intra,
        macroblocks[at + 2],
        macroblocks[at + 3],
        quantiser,
        levels,
        n * 384,
    );
    quantiser
}

// Every sample of the store is the one that the valid description gives over the reference. The quantiser goes on from group to group.
pub fn render(
    size: Size,
    head: &[u8],
    macroblocks: &[u8],
    levels: &[u8],
    reference: &[u8],
    store: &mut [u8],
)
    requires { PictureOf size (flat head.now macroblocks.now levels.now) (length reference.now) (length store.old) }
    ensures { store.new ≡ rendered size (flat head.now macroblocks.now levels.now) reference.now }
{
    let count = h263_description::down(size) * h263_description::across(size);
    let mut quantiser = head[4];
    for n in 0..count {
        quantiser = turn(
            size,
            head,
            macroblocks,
            levels,
            reference,
            store,
            n,
            quantiser,
        );
    }
}
