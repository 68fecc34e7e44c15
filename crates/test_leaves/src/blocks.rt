// What the inverse transform gives for each block of 64 coefficients, in the same form: rows of eight numbers of 16 bits in two's complement, high byte first. A coefficient
// is cut to -2048..2047 first.
ghost use Rattle.std.specs.Prelude.{◌≡◌, ◌+◌, ◌*◌, ◌≤◌, pos, neg_ℤ};
ghost use Rattle.laws.specs.Block.{Is};
ghost use Rattle.test_leaves.specs.Coefficient.{coefficient_of, coefficients_of};

use checks::two;
use quantiser::cut::cut;
use std::io::{Read, Write};

// -n
fn minus(n: usize) -> i32
    requires { n ≤ 65536 }
    ensures { result ≡ neg_ℤ (pos n) }
{
    0 - (n as i32)
}

fn coefficient(high: u8, low: u8) -> i32
    ensures { result ≡ coefficient_of (256 * high + low) }
{
    let n = two(high, low);
    if n < 32768 {
        cut(-2048, 2047, n as i32)
    } else {
        cut(-2048, 2047, minus(65536 - n))
    }
}

fn block(bytes: &[u8; 128]) -> [[i32; 8]; 8]
    ensures { Is (pos 0) (coefficients_of bytes.now) result }
{
    let zeros = [0i32; 8];
    let mut block = [zeros; 8];
    for k in 0..64 {
        let i = k / 8;
        let j = k % 8;
        let at = i * 16 + j * 2;
        block[i][j] = coefficient(bytes[at], bytes[at + 1]);
    }
    block
}

fn byte(z: i32) -> u8 {
    cut(0, 255, z) as u8
}

fn high(z: i32) -> u8 {
    if z < 0 { 255 } else { 0 }
}

// The low byte of one of -256..255.
fn low(z: i32) -> u8 {
    if z < 0 { 255 - byte(!z) } else { byte(z) }
}

fn lay(block: [[i32; 8]; 8]) -> [u8; 128] {
    let mut bytes = [0u8; 128];
    for k in 0..64 {
        let z = block[k / 8][k % 8];
        bytes[2 * k] = high(z);
        bytes[2 * k + 1] = low(z);
    }
    bytes
}

// One block, and whether to go on.
pub fn one<I: Read, O: Write>(stdin: &mut I, stdout: &mut O) -> bool {
    let mut bytes = [0u8; 128];
    if !checks::fills(stdin, &mut bytes) {
        return false;
    }
    let coefficients = block(&bytes);
    let out = lay(inverse::inverse(coefficients));
    stdout.write_all(&out).is_ok()
}
