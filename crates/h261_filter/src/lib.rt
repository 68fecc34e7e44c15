// The loop filter of a block: weights 1, 2, 1 each way inside the block, 0, 4, 0 at its edge, rounded once.
#![tactic(auto)]

ghost use Rattle.std.specs.Prelude.{◌≡◌, ◌<◌, pos, ◌+ℤ◌, ◌*ℤ◌};
ghost use Rattle.laws.specs.Integer.{Low};
ghost use Rattle.laws.specs.Block.{Is};
ghost use Rattle.quantiser.specs.Lines.{SmallRow, Line, entry};
ghost use Rattle.quantiser.specs.Sample.{Samples};
ghost use Rattle.h261_filter.specs.Filter.{weighted, rounded_sixteenth, filter_at, AtEdge, AtInside, ThreeNumbers, ThreeRows};

fn inside(a: i32, b: i32, c: i32) -> i32
    requires { ThreeNumbers a b c }
    ensures { result ≡ a +ℤ pos 2 *ℤ b +ℤ c }
{
    a + 2 * b + c
}

fn edge(b: i32) -> i32
    requires { Low 1020 b }
    ensures { result ≡ pos 4 *ℤ b }
{
    4 * b
}

fn rounded(sum: i32) -> i32
    requires { Low 4080 sum }
    ensures { result ≡ rounded_sixteenth sum }
{
    (sum + 8) >> 4
}

// Place k of the sums down the columns: inside the block, and at its edge.
fn down(a: [i32; 8], b: [i32; 8], c: [i32; 8], k: usize) -> i32
    requires { (ThreeRows a b c) × (k < 8) }
    ensures { result ≡ entry a k +ℤ pos 2 *ℤ entry b k +ℤ entry c k }
{
    inside(a[k], b[k], c[k])
}

fn down_edge(b: [i32; 8], k: usize) -> i32
    requires { (SmallRow 255 b) × (k < 8) }
    ensures { result ≡ pos 4 *ℤ entry b k }
{
    edge(b[k])
}

fn between(a: [i32; 8], b: [i32; 8], c: [i32; 8]) -> [i32; 8]
    requires { ThreeRows a b c }
    ensures { Line (λ x. entry a x +ℤ pos 2 *ℤ entry b x +ℤ entry c x) result }
{
    [
        down(a, b, c, 0),
        down(a, b, c, 1),
        down(a, b, c, 2),
        down(a, b, c, 3),
        down(a, b, c, 4),
        down(a, b, c, 5),
        down(a, b, c, 6),
        down(a, b, c, 7),
    ]
}

fn border(b: [i32; 8]) -> [i32; 8]
    requires { SmallRow 255 b }
    ensures { Line (λ x. pos 4 *ℤ entry b x) result }
{
    [
        down_edge(b, 0),
        down_edge(b, 1),
        down_edge(b, 2),
        down_edge(b, 3),
        down_edge(b, 4),
        down_edge(b, 5),
        down_edge(b, 6),
        down_edge(b, 7),
    ]
}

// Place k of a finished row, from the sums down the columns.
fn along(g: [i32; 8], k: usize) -> i32
    requires { (SmallRow 1020 g) × (AtInside k) }
    ensures { result ≡ rounded_sixteenth (weighted (entry g) k) }
{
    rounded(inside(g[k - 1], g[k], g[k + 1]))
}

fn along_edge(g: [i32; 8], k: usize) -> i32
    requires { (SmallRow 1020 g) × (AtEdge k) }
    ensures { result ≡ rounded_sixteenth (weighted (entry g) k) }
{
    rounded(edge(g[k]))
}

fn across(g: [i32; 8]) -> [i32; 8]
    requires { SmallRow 1020 g }
    ensures { Line (λ x. rounded_sixteenth (weighted (entry g) x)) result }
{
    [
        along_edge(g, 0),
        along(g, 1),
        along(g, 2),
        along(g, 3),
        along(g, 4),
        along(g, 5),
        along(g, 6),
        along_edge(g, 7),
    ]
}

// The edge rows stand outside the loop, so that no place is asked whether it is at the edge.
pub fn filter(block: [[i32; 8]; 8]) -> [[i32; 8]; 8]
    requires { Samples block }
    ensures { Is (pos 0) (filter_at block) result }
{
    let zeros = [0i32; 8];
    let mut out = [zeros; 8];
    let first = block[0];
    out[0] = across(border(first));
    for row in 1..7 {
        let above = block[row - 1];
        let here = block[row];
        let below = block[row + 1];
        out[row] = across(between(above, here, below));
    }
    let last = block[7];
    out[7] = across(border(last));
    out
}
