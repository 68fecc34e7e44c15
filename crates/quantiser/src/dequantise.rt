// The dequantiser: from the 64 bytes of a block, in transmission order, to its coefficients.
ghost use Rattle.std.specs.Prelude.{◌≡◌, [], ◌∷◌, ◌≤◌, pos, get_or, length};
ghost use Rattle.laws.specs.Integer.{Low};
ghost use Rattle.laws.specs.Rows.{Starts};
ghost use Rattle.laws.specs.Block.{Is};
ghost use Rattle.quantiser.specs.Lines.{SmallRow, Line, EightPlaces, entry};
ghost use Rattle.quantiser.specs.Level.{bytes_from, Coded, level_of, magnitude, signed, coefficient, direct, value_at, position_at, coefficient_at};

use crate::cut::cut16;

// A level is a byte in two's complement. Without a branch: the compiler then sees a sign extended, and does eight at once.
fn level(byte: u8) -> i16
    ensures { result ≡ level_of byte }
{
    (((byte as u16) + 128) % 256) as i16 - 128
}

// Q, or Q - 1 where Q is even.
fn odd(quantiser: u8) -> i16
    requires { (1 ≤ quantiser) × (quantiser ≤ 31) }
    ensures { result ≡ pos (magnitude quantiser 0) }
{
    if quantiser % 2 == 0 {
        (quantiser as i16) - 1
    } else {
        quantiser as i16
    }
}

// A number with the sign of a level; 0 for level 0.
fn signed(number: i16, level: i16) -> i16
    requires { Low 32767 number }
    ensures { result ≡ signed number level }
{
    number * cut16(-1, 1, level)
}

// What a level's byte stands for, without a branch: s Q (2 |L| + 1) is 2 Q L + s Q.
fn coefficient(byte: u8, quantiser: u8) -> i16
    requires { (1 ≤ quantiser) × (quantiser ≤ 31) }
    ensures { result ≡ coefficient quantiser (level_of byte) }
{
    let l = level(byte);
    cut16(
        -2048,
        2047,
        2 * (quantiser as i16) * l + signed(odd(quantiser), l),
    )
}

fn direct(code: u8) -> i32
    ensures { result ≡ direct code }
{
    if code == 255 { 1024 } else { 8 * (code as i32) }
}

// The coefficients of a block, in transmission order.
fn coefficients(levels: &[u8], at: usize, quantiser: u8) -> [i16; 64]
    requires { Coded 64 at quantiser (length levels.now) }
    ensures { Starts (pos 0) 64 64 (λ k. coefficient quantiser (level_of (bytes_from levels.now at k))) result }
{
    let mut numbers = [0i16; 64];
    for k in 0..64 {
        numbers[k] = coefficient(levels[at + k], quantiser);
    }
    numbers
}

// The numbers at eight positions.
fn row(
    n: &[i16; 64],
    a: usize,
    b: usize,
    c: usize,
    d: usize,
    e: usize,
    f: usize,
    g: usize,
    h: usize,
) -> [i32; 8]
    requires { EightPlaces n.now a b c d e f g h }
    ensures { Line (λ x. entry n.now (get_or (a ∷ b ∷ c ∷ d ∷ e ∷ f ∷ g ∷ h ∷ []) x 0)) result }
{
    [
        n[a] as i32,
        n[b] as i32,
        n[c] as i32,
        n[d] as i32,
        n[e] as i32,
        n[f] as i32,
        n[g] as i32,
        n[h] as i32,
    ]
}

// Figure 12, counted from 0.
fn placed(n: &[i16; 64]) -> [[i32; 8]; 8]
    requires { SmallRow 2048 n.now }
    ensures { Is (pos 0) (λ i j. entry n.now (position_at i j)) result }
{
    [
        row(n, 0, 1, 5, 6, 14, 15, 27, 28),
        row(n, 2, 4, 7, 13, 16, 26, 29, 42),
        row(n, 3, 8, 12, 17, 25, 30, 41, 43),
        row(n, 9, 11, 18, 24, 31, 40, 44, 53),
        row(n, 10, 19, 23, 32, 39, 45, 52, 54),
        row(n, 20, 22, 33, 38, 46, 51, 55, 60),
        row(n, 21, 34, 37, 47, 50, 56, 59, 61),
        row(n, 35, 36, 48, 49, 57, 58, 62, 63),
    ]
}

pub fn dequantise(levels: &[u8], at: usize, intra: bool, quantiser: u8) -> [[i32; 8]; 8]
    requires { Coded 64 at quantiser (length levels.now) }
    ensures { Is (pos 0) (coefficient_at (bytes_from levels.now at) intra quantiser) result }
{
    // Before the branch, so that it is none: the numbers would wait for it in memory.
    let start = direct(levels[at]);
    let numbers = coefficients(levels, at, quantiser);
    let mut block = placed(&numbers);
    if intra {
        block[0][0] = start;
    }
    block
}

// What the first byte of a block stands for.
pub fn first(byte: u8, intra: bool, quantiser: u8) -> i32
    requires { (1 ≤ quantiser) × (quantiser ≤ 31) }
    ensures { result ≡ value_at (λ _. byte) intra quantiser 0 }
{
    if intra {
        return direct(byte);
    }
    coefficient(byte, quantiser) as i32
}
