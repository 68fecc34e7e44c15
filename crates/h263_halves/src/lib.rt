// Blocks of samples half way between others: from a reference, moved by half a sample to the right, down, or both, into a store.
// Rows are numbers of 16 bits, of which the compiler does eight at once.
#![tactic(auto)]

ghost use Rattle.std.specs.Prelude.{◌≡◌, ℕ, ◌+◌, ◌*◌, ◌/◌, ◌<◌, ◌≤◌, get_or, length};
ghost use Rattle.laws.specs.Rows.{Begins, Row, Put};
ghost use Rattle.samples.specs.Wrote.{rows_of};
ghost use Rattle.h263_halves.specs.Half.{half_sample};
ghost use Rattle.h263_halves.specs.Ready.{BothRows, Among, Halves};

// Between two samples, rounded up.
fn between(a: u8, b: u8) -> u16
    ensures { result ≡ (a + b + 1) / 2 }
{
    (a as u16 + b as u16 + 1) / 2
}

// Eight samples between those of two rows.
fn means(samples: &[u8], a: usize, b: usize) -> [u16; 8]
    requires { BothRows a b (length samples.now) }
    ensures { Begins 8 8 (λ j. (get_or samples.now (a + j) 0 + get_or samples.now (b + j) 0 + 1) / 2) result }
{
    let mut row = [0u16; 8];
    for j in 0..8 {
        row[j] = between(samples[a + j], samples[b + j]);
    }
    row
}

fn sum(a: u8, b: u8) -> u16
    ensures { result ≡ a + b }
{
    a as u16 + b as u16
}

// Eight sums of a sample and the next one in its row.
fn sums(samples: &[u8], at: usize) -> [u16; 8]
    requires { at + 9 ≤ length samples.now }
    ensures { Begins 8 8 (λ j. get_or samples.now (at + j) 0 + get_or samples.now (at + j + 1) 0) result }
{
    let mut row = [0u16; 8];
    for j in 0..8 {
        row[j] = sum(samples[at + j], samples[at + j + 1]);
    }
    row
}

// Eight samples among four each, by the sums of two rows.
fn among(above: [u16; 8], below: [u16; 8]) -> [u16; 8]
    requires { (Among above) × (Among below) }
    ensures { Begins 8 8 (λ j. (get_or above j 0 + get_or below j 0 + 2) / 4) result }
{
    let mut row = [0u16; 8];
    for j in 0..8 {
        row[j] = (above[j] + below[j] + 2) / 4;
    }
    row
}

// A row of samples, written as bytes.
fn put_row(store: &mut [u8], to: usize, row: [u16; 8])
    requires { (to + 8 ≤ length store.old) × ((j : ℕ) → j < 8 → get_or row j 0 ≤ 255) }
    ensures { Row to 8 (λ j. get_or row j 0) store.old store.new }
{
    for j in 0..8 {
        store[to + j] = row[j] as u8;
    }
}

// Half a sample to the right.
fn put_right(reference: &[u8], from: usize, store: &mut [u8], to: usize, stride: usize)
    requires { Halves from to stride 1 0 (length reference.now) (length store.old) }
    ensures { Put 8 8 to stride (λ i j. half_sample (rows_of reference.now from stride) (2 * i + 0) (2 * j + 1)) store.old store.new }
{
    for i in 0..8 {
        let row = sums(reference, from + i * stride);
        put_row(store, to + i * stride, among(row, row));
    }
}

// Half a sample down.
fn put_down(reference: &[u8], from: usize, store: &mut [u8], to: usize, stride: usize)
    requires { Halves from to stride 0 1 (length reference.now) (length store.old) }
    ensures { Put 8 8 to stride (λ i j. half_sample (rows_of reference.now from stride) (2 * i + 1) (2 * j + 0)) store.old store.new }
{
    for i in 0..8 {
        let row = means(reference, from + i * stride, from + (i + 1) * stride);
        put_row(store, to + i * stride, row);
    }
}

// Half a sample to the right and down: each row of sums serves the row above it and the one below.
fn put_both(reference: &[u8], from: usize, store: &mut [u8], to: usize, stride: usize)
    requires { Halves from to stride 1 1 (length reference.now) (length store.old) }
    ensures { Put 8 8 to stride (λ i j. half_sample (rows_of reference.now from stride) (2 * i + 1) (2 * j + 1)) store.old store.new }
{
    let mut above = sums(reference, from);
    for i in 0..8 {
        let below = sums(reference, from + (i + 1) * stride);
        put_row(store, to + i * stride, among(above, below));
        above = below;
    }
}

// The block that begins half a sample to the right of a place (where `right` is 1, else 0) and half a sample below it (`down`).
pub fn put(
    reference: &[u8],
    from: usize,
    store: &mut [u8],
    to: usize,
    stride: usize,
    right: usize,
    down: usize,
)
    requires { Halves from to stride right down (length reference.now) (length store.old) }
    ensures { Put 8 8 to stride (λ i j. half_sample (rows_of reference.now from stride) (2 * i + down) (2 * j + right)) store.old store.new }
{
    if right == 0 {
        if down == 0 {
            samples::rows::copy(8, reference, from, store, to, stride);
            return;
        }
        put_down(reference, from, store, to, stride);
        return;
    }
    if down == 0 {
        put_right(reference, from, store, to, stride);
        return;
    }
    put_both(reference, from, store, to, stride);
}
