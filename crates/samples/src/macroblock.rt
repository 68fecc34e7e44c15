// The six blocks of a macroblock, by its row and column: where they lie, and all of them as the reference has them.
ghost use Rattle.std.specs.Prelude.{◌≡◌, ◌-◌, ◌≤◌, length};
ghost use Rattle.size.specs.Place.{grid_of};
ghost use Rattle.samples.specs.Content.{kept_values};
ghost use Rattle.samples.specs.Wrote.{Macroblock};
ghost use Rattle.samples.specs.Ready.{Ready};

use crate::rows;
use size::Size;

// The plane of a block, and its block row or column in it.
pub fn plane_of(block: usize) -> usize
    ensures { result ≡ block - 3 }
{
    if block < 4 { 0 } else { block - 3 }
}

pub fn grid(plane: usize, place: usize, half: usize) -> usize
    requires { (place ≤ 65535) × (half ≤ 65535) }
    ensures { result ≡ grid_of plane place half }
{
    if plane == 0 { place * 2 + half } else { place }
}

// "Macroblocks not sent are copied from the reference."
pub fn kept(size: Size, reference: &[u8], store: &mut [u8], row: usize, column: usize)
    requires { Ready size row column (length reference.now) (length store.old) }
    ensures { Macroblock size row column (kept_values size reference.now) store.old store.new }
{
    let stride = size::place::stride(size, 0);
    let at = rows::place(size, 0, row * 16, column * 16);
    rows::copy(16, reference, at, store, at, stride);
    let half = size::place::stride(size, 1);
    let cb = rows::place(size, 1, row * 8, column * 8);
    rows::copy(8, reference, cb, store, cb, half);
    let cr = rows::place(size, 2, row * 8, column * 8);
    rows::copy(8, reference, cr, store, cr, half);
}
