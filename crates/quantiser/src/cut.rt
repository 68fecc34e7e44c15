// A number cut to a range.
ghost use Rattle.std.specs.Prelude.{◌≡◌};
ghost use Rattle.quantiser.specs.Cut.{at_least, at_most, cut, short};

// Each bound is a step of its own: the compiler then does several numbers at once.
fn at_least(lowest: i32, z: i32) -> i32
    ensures { result ≡ at_least lowest z }
{
    if z < lowest { lowest } else { z }
}

fn at_most(highest: i32, z: i32) -> i32
    ensures { result ≡ at_most highest z }
{
    if highest < z { highest } else { z }
}

pub fn cut(lowest: i32, highest: i32, z: i32) -> i32
    ensures { result ≡ cut lowest highest z }
{
    at_most(highest, at_least(lowest, z))
}

// The same in 16 bits, of which the compiler does eight at once.
fn at_least16(lowest: i16, z: i16) -> i16
    ensures { result ≡ at_least lowest z }
{
    if z < lowest { lowest } else { z }
}

fn at_most16(highest: i16, z: i16) -> i16
    ensures { result ≡ at_most highest z }
{
    if highest < z { highest } else { z }
}

pub fn cut16(lowest: i16, highest: i16, z: i16) -> i16
    ensures { result ≡ cut lowest highest z }
{
    at_most16(highest, at_least16(lowest, z))
}

// A number cut to 16 bits.
pub fn short(z: i32) -> i16
    ensures { result ≡ short z }
{
    cut(-32768, 32767, z) as i16
}
