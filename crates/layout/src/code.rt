// A level in eight bits: its sign and its size.
ghost use Rattle.std.specs.Prelude.{◌≡◌};
ghost use Rattle.layout.specs.Numbers.{code_sign, code_size};

// 0 for a positive level, 1 for a negative one.
pub fn sign(code: u8) -> u32
    ensures { result ≡ code_sign code }
{
    if code < 128 { 0 } else { 1 }
}

pub fn magnitude(code: u8) -> usize
    ensures { result ≡ code_size code }
{
    if code < 128 {
        code as usize
    } else {
        256 - code as usize
    }
}
