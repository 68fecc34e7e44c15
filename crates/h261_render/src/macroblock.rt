// One macroblock that is sent, by its row and column.
ghost use Rattle.std.specs.Prelude.{◌+◌, ◌*◌, length};
ghost use Rattle.quantiser.specs.Level.{bytes_from};
ghost use Rattle.samples.specs.Content.{difference_of, sent_values};
ghost use Rattle.samples.specs.Wrote.{Macroblock};
ghost use Rattle.h261_groups.specs.Format.{size_of};
ghost use Rattle.h261_render.specs.Sample.{predictions_from};
ghost use Rattle.h261_render.specs.Turn.{intra_of, vector_from, MacroblockOf};

use crate::{Prediction, block};
use h261_groups::Format;

// The levels of its six blocks stand at `at`.
pub fn sent(
    format: Format,
    reference: &[u8],
    store: &mut [u8],
    row: usize,
    column: usize,
    prediction: Prediction,
    horizontal: u8,
    vertical: u8,
    quantiser: u8,
    levels: &[u8],
    at: usize,
)
    requires { MacroblockOf format row column (vector_from horizontal vertical) at quantiser (length reference.now) (length store.old) (length levels.now) }
    ensures { Macroblock (size_of format) row column (sent_values (predictions_from format reference.now prediction (vector_from horizontal vertical)) (λ b. difference_of (bytes_from levels.now (at + b * 64)) (intra_of prediction) quantiser)) store.old store.new }
{
    for b in 0..6 {
        let plane = samples::macroblock::plane_of(b);
        let y = samples::macroblock::grid(plane, row, b / 2 % 2);
        let x = samples::macroblock::grid(plane, column, b % 2);
        block::block(
            format,
            reference,
            store,
            plane,
            y,
            x,
            prediction,
            horizontal,
            vertical,
            quantiser,
            levels,
            at + b * 64,
        );
    }
}
