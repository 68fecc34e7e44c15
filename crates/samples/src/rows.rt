// Rows of samples, from a store to another. A row is read whole before it is written, so that it goes in one piece.
ghost use Rattle.std.specs.Prelude.{◌≡◌, ◌+◌, ◌≤◌, get_or, length};
ghost use Rattle.laws.specs.Rows.{Begins, Row, Put};
ghost use Rattle.size.specs.Place.{index};
ghost use Rattle.samples.specs.Wrote.{rows_of};
ghost use Rattle.samples.specs.Ready.{Inside, InPlane, Copies};

use size::Size;

// Where a row and a column of a plane lie in a store, by where the plane starts and how far its rows are apart.
pub fn place_from(
    size: Size,
    plane: usize,
    start: usize,
    stride: usize,
    row: usize,
    column: usize,
) -> usize
    requires { InPlane size plane start stride row column }
    ensures { result ≡ index size plane row column }
{
    start + row * stride + column
}

// The same by the plane alone.
pub fn place(size: Size, plane: usize, row: usize, column: usize) -> usize
    requires { Inside size plane row column }
    ensures { result ≡ index size plane row column }
{
    let start = size::place::start(size, plane);
    let stride = size::place::stride(size, plane);
    place_from(size, plane, start, stride, row, column)
}

// The first samples of a row, at most sixteen.
fn row(samples: &[u8], from: usize, count: usize) -> [u8; 16]
    requires { (count ≤ 16) × (from + count ≤ length samples.now) }
    ensures { Begins 16 count (λ j. get_or samples.now (from + j) 0) result }
{
    let mut row = [0u8; 16];
    for j in 0..count {
        row[j] = samples[from + j];
    }
    row
}

fn put_row(store: &mut [u8], to: usize, count: usize, row: [u8; 16])
    requires { (count ≤ 16) × (to + count ≤ length store.old) }
    ensures { Row to count (λ j. get_or row j 0) store.old store.new }
{
    for j in 0..count {
        store[to + j] = row[j];
    }
}

// So many rows of so many: eight, or sixteen.
pub fn copy(side: usize, reference: &[u8], from: usize, store: &mut [u8], to: usize, stride: usize)
    requires { Copies side from (length reference.now) to (length store.old) stride }
    ensures { Put side side to stride (rows_of reference.now from stride) store.old store.new }
{
    for i in 0..side {
        let samples = row(reference, from + i * stride, side);
        put_row(store, to + i * stride, side, samples);
    }
}
