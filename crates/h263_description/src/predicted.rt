// The predictor of a macroblock's vector, from the bytes of the macroblocks before it. A component is kept as 32 more than it is: 0 to 63.
ghost use Rattle.std.specs.Prelude.{◌≡◌, max, min, T};
ghost use Rattle.layout.specs.Flat.{number_of};
ghost use Rattle.h263_description.specs.Vector.{in_range, left_of, predictor as predictor_of};
ghost use Rattle.h263_description.specs.Landing.{residue_of};
ghost use Rattle.h263_description.specs.Kept.{kept_vector, median_kept, vectors_in, BytesNear, PredictorAsked};

// A vector, each component kept as 32 more than it is.
#[derive(Clone, Copy, PartialEq, Eq)]
pub struct Kept {
    pub horizontal: usize,
    pub vertical: usize,
}

// A component's byte, kept so.
pub fn residue(byte: u8) -> usize
    requires { T (in_range (number_of byte)) }
    ensures { result ≡ residue_of (number_of byte) }
{
    (byte as usize + 32) % 256
}

// ---- the median

fn median(a: usize, b: usize, c: usize) -> usize
    ensures { result ≡ max (min a b) (min (max a b) c) }
{
    a.min(b).max(a.max(b).min(c))
}

fn median_vector(a: Kept, b: Kept, c: Kept) -> Kept
    ensures { result ≡ median_kept a b c }
{
    Kept {
        horizontal: median(a.horizontal, b.horizontal, c.horizontal),
        vertical: median(a.vertical, b.vertical, c.vertical),
    }
}

// ---- the candidates

// The vector that the bytes of macroblock k say.
fn vector_at(macroblocks: &[u8], k: usize) -> Kept
    requires { BytesNear macroblocks.now k }
    ensures { result ≡ kept_vector (vectors_in macroblocks.now k) }
{
    Kept {
        horizontal: residue(macroblocks[k * 4 + 2]),
        vertical: residue(macroblocks[k * 4 + 3]),
    }
}

fn zero_vector() -> Kept
    ensures { (result.horizontal ≡ 32) × (result.vertical ≡ 32) }
{
    Kept {
        horizontal: 32,
        vertical: 32,
    }
}

// MV1.
fn left_vector(macroblocks: &[u8], n: usize, column: usize, across: usize) -> Kept
    requires { PredictorAsked macroblocks.now across n column }
    ensures { result ≡ kept_vector (left_of across (vectors_in macroblocks.now) n) }
{
    if column == 0 {
        return zero_vector();
    }
    vector_at(macroblocks, n - 1)
}

// What predicts the vector of macroblock n, in a column of a picture so many macroblocks across; `headed` where its group has a header. At the border above, it is MV1.
pub fn predictor(macroblocks: &[u8], n: usize, column: usize, across: usize, headed: bool) -> Kept
    requires { PredictorAsked macroblocks.now across n column }
    ensures { result ≡ kept_vector (predictor_of across headed (vectors_in macroblocks.now) n) }
{
    let left = left_vector(macroblocks, n, column, across);
    if headed {
        return left;
    }
    if n < across {
        return left;
    }
    let above = vector_at(macroblocks, n - across);
    if column + 1 == across {
        return median_vector(left, above, zero_vector());
    }
    median_vector(left, above, vector_at(macroblocks, n - across + 1))
}
