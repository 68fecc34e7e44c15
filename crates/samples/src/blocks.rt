// Blocks of eight by eight: out of a store, and into one, by themselves or added to what it holds.
ghost use Rattle.std.specs.Prelude.{ℕ, ◌+◌, ◌<◌, ◌≤◌, pos, nat_abs, get_or, length};
ghost use Rattle.laws.specs.Rows.{Row, Put, Room};
ghost use Rattle.laws.specs.Block.{Is, cell};
ghost use Rattle.quantiser.specs.Lines.{Line, Small, entry};
ghost use Rattle.quantiser.specs.Sample.{Sample, sample_of};
ghost use Rattle.samples.specs.Wrote.{block_from};
ghost use Rattle.samples.specs.Ready.{Fits, Addends};

// The block that starts at a place.
pub fn fetch(samples: &[u8], start: usize, stride: usize) -> [[i32; 8]; 8]
    requires { Room 8 8 start stride (length samples.now) }
    ensures { Is (pos 0) (block_from samples.now start stride) result }
{
    let zeros = [0i32; 8];
    let mut block = [zeros; 8];
    for i in 0..8 {
        let at = start + i * stride;
        for j in 0..8 {
            block[i][j] = samples[at + j] as i32;
        }
    }
    block
}

// Row i of a block, cut to samples: in 16 bits, of which the compiler does eight at once.
fn cuts(block: &[[i32; 8]; 8], i: usize) -> [i16; 8]
    requires { (Small 256 block.now) × (i < 8) }
    ensures { Line (λ j. pos (sample_of (pos 0) (cell (pos 0) block.now i j))) result }
{
    let mut row = [0i16; 8];
    for j in 0..8 {
        row[j] = quantiser::sample::sample(0, block[i][j]);
    }
    row
}

// Eight samples with row i of a block added to them.
fn sums(samples: &[u8], at: usize, block: &[[i32; 8]; 8], i: usize) -> [i16; 8]
    requires { Addends at i block.now (length samples.now) }
    ensures { Line (λ j. pos (sample_of (pos (get_or samples.now (at + j) 0)) (cell (pos 0) block.now i j))) result }
{
    let mut row = [0i16; 8];
    for j in 0..8 {
        row[j] = quantiser::sample::sample(samples[at + j] as i32, block[i][j]);
    }
    row
}

// A row of samples, written as bytes.
fn put_sums(store: &mut [u8], to: usize, row: [i16; 8])
    requires { (to + 8 ≤ length store.old) × ((j : ℕ) → j < 8 → Sample (entry row j)) }
    ensures { Row to 8 (λ j. nat_abs (entry row j)) store.old store.new }
{
    for j in 0..8 {
        store[to + j] = row[j] as u8;
    }
}

// A block by itself, where the prediction is 0.
pub fn put(store: &mut [u8], to: usize, stride: usize, block: &[[i32; 8]; 8])
    requires { (Fits 8 to stride (length store.old)) × Small 256 block.now }
    ensures { Put 8 8 to stride (λ i j. sample_of (pos 0) (cell (pos 0) block.now i j)) store.old store.new }
{
    for i in 0..8 {
        let row = cuts(block, i);
        put_sums(store, to + i * stride, row);
    }
}

// A block added to the prediction that the store holds.
pub fn add(store: &mut [u8], to: usize, stride: usize, block: &[[i32; 8]; 8])
    requires { (Fits 8 to stride (length store.old)) × Small 256 block.now }
    ensures { Put 8 8 to stride (λ i j. sample_of (block_from store.old to stride i j) (cell (pos 0) block.now i j)) store.old store.new }
{
    for i in 0..8 {
        let row = sums(store, to + i * stride, block, i);
        put_sums(store, to + i * stride, row);
    }
}
