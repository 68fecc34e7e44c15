// Whether a start code stands where a group begins, with GSTUF or without. That is a look ahead, and no read.
ghost use Rattle.std.specs.Prelude.{◌≡◌, min};
ghost use Rattle.bits.specs.Bits.{bits_left};
ghost use Rattle.bits.specs.Answer.{Within};
ghost use Rattle.h263_layers.specs.Start.{zeros_ahead, ahead as ahead_of};
ghost use Rattle.h263_layers.specs.Answer.{as_ahead};

// A start code after so many bits of GSTUF, none, or bits that end inside one.
#[derive(Clone, Copy, PartialEq, Eq)]
pub enum Ahead {
    Stands(usize),
    Absent,
    CutOff,
}

// The zeros from `at` on, up to 24 of them: no start code begins with so many.
fn zeros(bytes: &[u8], count: usize, at: usize) -> usize
    requires { Within bytes.now count at }
    ensures { result ≡ min 24 (zeros_ahead (bits_left bytes.now count at)) }
{
    let bits = bits::window(bytes, at);
    let left = count - at;
    for seen in 0..24 {
        if left <= seen {
            return seen;
        }
        let after = 23 - seen;
        if (bits >> after) % 2 == 1 {
            return seen;
        }
    }
    24
}

pub fn ahead_at(bytes: &[u8], count: usize, at: usize) -> Ahead
    requires { Within bytes.now count at }
    ensures { as_ahead result ≡ ahead_of (bits_left bytes.now count at) at }
{
    let seen = zeros(bytes, count, at);
    let stuffing = (8 - at % 8) % 8;
    if 24 <= seen {
        return Ahead::Absent;
    }
    if count - at <= seen {
        if seen <= 16 + stuffing {
            return Ahead::CutOff;
        }
        return Ahead::Absent;
    }
    if seen == 16 {
        return Ahead::Stands(0);
    }
    if seen == 16 + stuffing {
        return Ahead::Stands(stuffing);
    }
    Ahead::Absent
}
