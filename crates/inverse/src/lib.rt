// The inverse transform, exact: the double sum is two passes of sums along lines of eight, rounded once at the end.
//
// A pass goes by pairs of products, each of which the compiler makes in one step and once for two results or more: so every pair stands in two sums, with
// one sign and then the other, and the compiler doesn't take the sums apart. Both passes stay within 32 bits: what the rows give is split into
// t = 8192 high + low, and (S + 2^24) / 2^25 is then (H + L / 8192) / 4096, rounded down each time, where H and L are the sums of the two parts and the
// rounding term 2^24 = 8192 · 2048 stands in the first number of the line.
#![tactic(auto)]

ghost use Rattle.std.specs.Prelude.{◌≡◌, ◌<◌, pos, negsuc, ◌+ℤ◌, ◌-ℤ◌, ◌*ℤ◌};
ghost use Rattle.laws.specs.Integer.{Low};
ghost use Rattle.laws.specs.Floor.{floor_divided};
ghost use Rattle.laws.specs.Block.{Is, cell};
ghost use Rattle.laws.specs.Linear.{eval};
ghost use Rattle.inverse.specs.Inverse.{inverse_at};
ghost use Rattle.inverse.specs.Alone.{flat_at};
ghost use Rattle.quantiser.specs.Cut.{cut};
ghost use Rattle.quantiser.specs.Lines.{Small, SmallRow, Line, entry};
ghost use Rattle.inverse.specs.Passes.{Factors, Half, along, pair_of, down_at, rows_at, columns_at, finished};

use quantiser::cut::{cut16, short};

// Two numbers of a line by their factors.
fn pair(f: [i16; 8], i: usize, k: i32, j: usize, l: i32) -> i32
    requires { (SmallRow 16384 f) × (Factors i k j l) }
    ensures { result ≡ eval (entry f) (pair_of i k j l) }
{
    (f[i] as i32) * k + (f[j] as i32) * l
}

// Two pairs come to 4 products of 16384 by 2841, 186187776.
fn sum(a: i32, b: i32) -> i32
    requires { (Low 93093888 a) × (Low 93093888 b) }
    ensures { result ≡ a +ℤ b }
{
    a + b
}

fn difference(a: i32, b: i32) -> i32
    requires { (Low 93093888 a) × (Low 93093888 b) }
    ensures { result ≡ a -ℤ b }
{
    a - b
}

// A line's sum at one place, by the even places, the pair of odd ones that is added there and the one that is taken off.
fn joined(even: i32, more: i32, less: i32) -> i32
    requires { Half even more less }
    ensures { result ≡ even +ℤ more -ℤ less }
{
    even + more - less
}

// A line's eight sums.
fn pass(f: [i16; 8]) -> [i32; 8]
    requires { SmallRow 16384 f }
    ensures { Line (along f) result }
{
    let s = pair(f, 0, 2048, 4, 2048);
    let d = pair(f, 0, 2048, 4, -2048);
    let p = pair(f, 2, 2676, 6, 1108);
    let q = pair(f, 2, 1108, 6, -2676);
    let e0 = sum(s, p);
    let e1 = sum(d, q);
    let e2 = difference(d, q);
    let e3 = difference(s, p);
    let a0 = pair(f, 1, 2841, 3, 2408);
    let b0 = pair(f, 5, -1609, 7, -565);
    let a1 = pair(f, 1, 2408, 3, -565);
    let b1 = pair(f, 5, 2841, 7, 1609);
    let a2 = pair(f, 1, 1609, 3, -2841);
    let b2 = pair(f, 5, -565, 7, -2408);
    let a3 = pair(f, 1, 565, 3, -1609);
    let b3 = pair(f, 5, -2408, 7, 2841);
    [
        joined(e0, a0, b0),
        joined(e1, a1, b1),
        joined(e2, a2, b2),
        joined(e3, a3, b3),
        joined(e3, b3, a3),
        joined(e2, b2, a2),
        joined(e1, b1, a1),
        joined(e0, b0, a0),
    ]
}

fn narrow(z: i32) -> i16
    requires { Low 16384 z }
    ensures { result ≡ z }
{
    z as i16
}

// Column u of the block, in 16 bits.
fn narrowed(f: &[[i32; 8]; 8], u: usize) -> [i16; 8]
    requires { (Small 2048 f.now) × (u < 8) }
    ensures { Line (λ v. cell (pos 0) f.now v u) result }
{
    [
        narrow(f[0][u]),
        narrow(f[1][u]),
        narrow(f[2][u]),
        narrow(f[3][u]),
        narrow(f[4][u]),
        narrow(f[5][u]),
        narrow(f[6][u]),
        narrow(f[7][u]),
    ]
}

// Rows and columns exchanged: the rows' passes are then done several at once.
fn turned(f: [[i32; 8]; 8]) -> [[i16; 8]; 8]
    requires { Small 2048 f }
    ensures { Is (pos 0) (λ u v. cell (pos 0) f v u) result }
{
    [
        narrowed(&f, 0),
        narrowed(&f, 1),
        narrowed(&f, 2),
        narrowed(&f, 3),
        narrowed(&f, 4),
        narrowed(&f, 5),
        narrowed(&f, 6),
        narrowed(&f, 7),
    ]
}

// Row v of the block, from the block turned.
fn line(n: &[[i16; 8]; 8], v: usize) -> [i16; 8]
    requires { (Small 2048 n.now) × (v < 8) }
    ensures { Line (λ u. cell (pos 0) n.now u v) result }
{
    [
        n[0][v], n[1][v], n[2][v], n[3][v], n[4][v], n[5][v], n[6][v], n[7][v],
    ]
}

fn rows(f: [[i32; 8]; 8]) -> [[i32; 8]; 8]
    requires { Small 2048 f }
    ensures { Is (pos 0) (rows_at f) result }
{
    let n = turned(f);
    let zeros = [0i32; 8];
    let mut t = [zeros; 8];
    for v in 0..8 {
        t[v] = pass(line(&n, v));
    }
    t
}

fn high(t: i32) -> i16
    requires { Low 46555136 t }
    ensures { result ≡ floor_divided t 8192 }
{
    (t >> 13) as i16
}

fn low(t: i32) -> i16
    requires { Low 46555136 t }
    ensures { result ≡ t -ℤ floor_divided t 8192 *ℤ pos 8192 }
{
    (t - (t >> 13) * 8192) as i16
}

// The numbers of a column, the first with the rounding term.
fn column(t: &[[i32; 8]; 8], x: usize) -> [i32; 8]
    requires { (Small 46546944 t.now) × (x < 8) }
    ensures { Line (down_at t.now x) result }
{
    [
        t[0][x] + 8192,
        t[1][x],
        t[2][x],
        t[3][x],
        t[4][x],
        t[5][x],
        t[6][x],
        t[7][x],
    ]
}

fn highs(g: [i32; 8]) -> [i16; 8]
    requires { SmallRow 46555136 g }
    ensures { Line (λ v. floor_divided (entry g v) 8192) result }
{
    [
        high(g[0]),
        high(g[1]),
        high(g[2]),
        high(g[3]),
        high(g[4]),
        high(g[5]),
        high(g[6]),
        high(g[7]),
    ]
}

fn lows(g: [i32; 8]) -> [i16; 8]
    requires { SmallRow 46555136 g }
    ensures { Line (λ v. entry g v -ℤ floor_divided (entry g v) 8192 *ℤ pos 8192) result }
{
    [
        low(g[0]),
        low(g[1]),
        low(g[2]),
        low(g[3]),
        low(g[4]),
        low(g[5]),
        low(g[6]),
        low(g[7]),
    ]
}

// "cut to -256..255", by way of 16 bits, where the compiler cuts eight at once.
fn cut_output(z: i32) -> i32
    ensures { result ≡ cut (negsuc 255) (pos 255) z }
{
    cut16(-256, 255, short(z)) as i32
}

// Rounded and cut: 16 bits, of which seven more are to go, hold -256..255.
fn finish(h: i32, l: i32) -> i32
    requires { (Low 372375552 h) × (Low 372375552 l) }
    ensures { result ≡ finished h l }
{
    (short((h + (l >> 13)) >> 5) >> 7) as i32
}

fn columns(t: [[i32; 8]; 8]) -> [[i32; 8]; 8]
    requires { Small 46546944 t }
    ensures { Is (pos 0) (columns_at t) result }
{
    let zeros = [0i32; 8];
    let mut out = [zeros; 8];
    for x in 0..8 {
        let g = column(&t, x);
        let h = pass(highs(g));
        let l = pass(lows(g));
        for y in 0..8 {
            out[y][x] = finish(h[y], l[y]);
        }
    }
    out
}

pub fn inverse(f: [[i32; 8]; 8]) -> [[i32; 8]; 8]
    requires { Small 2048 f }
    ensures { Is (pos 0) (inverse_at f) result }
{
    columns(rows(f))
}

// What a number alone at (0, 0) gives, everywhere the same.
pub fn alone(z: i32) -> [[i32; 8]; 8]
    requires { Low 2048 z }
    ensures { Is (pos 0) (λ y x. flat_at z) result }
{
    let number = cut_output((z + 4) >> 3);
    let line = [number; 8];
    [line; 8]
}
