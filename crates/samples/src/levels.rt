// What is added to a block: the transform's output for its 64 levels.
ghost use Rattle.std.specs.Prelude.{◌≡◌, ◌+◌, ◌≤◌, eqb, pos, length};
ghost use Rattle.laws.specs.Block.{Is};
ghost use Rattle.laws.specs.Table.{all_b};
ghost use Rattle.quantiser.specs.Level.{bytes_from, Coded};
ghost use Rattle.quantiser.specs.Lines.{Small};
ghost use Rattle.samples.specs.Content.{difference_of};

// The bits of several levels together: none where all of them are 0. The compiler takes several at once.
fn united(levels: &[u8], from: usize, count: usize) -> u8
    requires { from + count ≤ length levels.now }
    ensures { eqb result 0 ≡ all_b count (λ k. eqb (bytes_from levels.now from k) 0) }
{
    let mut bits: u8 = 0;
    for k in 0..count {
        bits = bits | levels[from + k];
    }
    bits
}

// A block has no level but zeros after the first. Most blocks that have more than the first have one of the next seven.
pub fn alone(levels: &[u8], at: usize) -> bool
    requires { at + 64 ≤ length levels.now }
    ensures { result ≡ all_b 63 (λ k. eqb (bytes_from levels.now at (1 + k)) 0) }
{
    if united(levels, at + 1, 7) != 0 {
        return false;
    }
    united(levels, at + 8, 56) == 0
}

// A block has no level but zeros.
pub fn empty(levels: &[u8], at: usize) -> bool
    requires { at + 64 ≤ length levels.now }
    ensures { result ≡ all_b 64 (λ k. eqb (bytes_from levels.now at k) 0) }
{
    if levels[at] != 0 {
        return false;
    }
    alone(levels, at)
}

// The transform's output, with a short way where the first level stands alone.
pub fn output(levels: &[u8], at: usize, intra: bool, quantiser: u8) -> [[i32; 8]; 8]
    requires { Coded 64 at quantiser (length levels.now) }
    ensures is { Is (pos 0) (difference_of (bytes_from levels.now at) intra quantiser) result }
    ensures small { Small 256 result }
{
    if alone(levels, at) {
        return inverse::alone(quantiser::dequantise::first(levels[at], intra, quantiser));
    }
    inverse::inverse(quantiser::dequantise::dequantise(levels, at, intra, quantiser))
}
