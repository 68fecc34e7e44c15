// Bytes of a description under the rules that both standards have: levels, DC codes, quantisers.
#![tactic(auto)]

ghost use Rattle.std.specs.Prelude.{◌≡◌, length, replicate};
ghost use Rattle.layout.specs.Flat.{gather};
ghost use Rattle.layout.specs.Pattern.{presence_of};
ghost use Rattle.layout.specs.Numbers.{all, is_zero, is_level, is_quantiser, codes_first};
ghost use Rattle.levels.specs.Zeros.{zeros_from};

// Whether every byte is 0: then the largest is. No byte ends the loop, as one would end `all`, so that it goes over many at once.
pub fn all_zero(bytes: &[u8]) -> bool
    ensures { result ≡ all is_zero bytes.now }
{
    let mut largest: u8 = 0;
    for byte in bytes {
        largest = largest.max(*byte);
    }
    largest == 0
}

// From where on a block's levels are all zeros, in steps of 16: as most are, and a look at many at once is cheap.
pub fn zeros_from(levels: &[u8]) -> usize
    requires { length levels.now ≡ 64 }
    ensures { result ≡ zeros_from levels.now }
{
    if !all_zero(&levels[32..64]) {
        return 64;
    }
    if !all_zero(&levels[16..32]) {
        return 32;
    }
    16
}

// Whether levels have a coefficient among them, as a number.
pub fn present(levels: &[u8]) -> usize
    ensures { result ≡ presence_of (gather 0 levels.now) }
{
    if all_zero(levels) {
        return 0;
    }
    1
}

// 0 for a level, 1 for -128, which is none.
fn no_level(code: u8) -> u8
    ensures { is_zero result ≡ is_level code }
{
    if code == 128 {
        return 1;
    }
    0
}

// Whether every byte is a level.
pub fn all_levels(bytes: &[u8]) -> bool
    ensures { result ≡ all is_level bytes.now }
{
    let mut largest: u8 = 0;
    for byte in bytes {
        largest = largest.max(no_level(*byte));
    }
    largest == 0
}

// Whether each of six INTRA blocks has a DC code.
pub fn codes_first(bytes: &[u8]) -> bool
    requires { length bytes.now ≡ 384 }
    ensures { result ≡ codes_first 6 bytes.now }
{
    for block in 0..6 {
        if bytes[block * 64] == 0 {
            return false;
        }
    }
    true
}

// Whether a byte is a quantiser, 1 to 31.
pub fn is_quantiser(byte: u8) -> bool
    ensures { result ≡ is_quantiser byte }
{
    0 < byte && byte <= 31
}

// Zeros over all of a buffer.
pub fn clear(buffer: &mut [u8])
    ensures { buffer.new ≡ replicate (length buffer.old) 0 }
{
    buffer.fill(0);
}
