// One macroblock that is sent, by its row and column.
ghost use Rattle.std.specs.Prelude.{◌+◌, ◌*◌, length};
ghost use Rattle.quantiser.specs.Level.{bytes_from};
ghost use Rattle.samples.specs.Content.{difference_of, sent_values};
ghost use Rattle.samples.specs.Wrote.{Macroblock};
ghost use Rattle.layout.specs.Flat.{byte_vector};
ghost use Rattle.h263_render.specs.Sample.{predictions_from};
ghost use Rattle.h263_render.specs.Turn.{MacroblockOf};

use crate::block;
use size::Size;

// The levels of its six blocks stand at `at`.
pub fn sent(
    size: Size,
    reference: &[u8],
    store: &mut [u8],
    row: usize,
    column: usize,
    intra: bool,
    horizontal: u8,
    vertical: u8,
    quantiser: u8,
    levels: &[u8],
    at: usize,
)
    requires { MacroblockOf size row column intra (byte_vector horizontal vertical) at quantiser (length reference.now) (length store.old) (length levels.now) }
    ensures { Macroblock size row column (sent_values (predictions_from size reference.now intra (byte_vector horizontal vertical)) (λ b. difference_of (bytes_from levels.now (at + b * 64)) intra quantiser)) store.old store.new }
{
    for b in 0..6 {
        let plane = samples::macroblock::plane_of(b);
        let y = samples::macroblock::grid(plane, row, b / 2 % 2);
        let x = samples::macroblock::grid(plane, column, b % 2);
        block::block(
            size,
            reference,
            store,
            plane,
            y,
            x,
            intra,
            horizontal,
            vertical,
            quantiser,
            levels,
            at + b * 64,
        );
    }
}
