// Places in a store, by plane: 0 for Y, 1 for CB, 2 for CR.
ghost use Rattle.std.specs.Prelude.{◌≡◌, ◌<◌};
ghost use Rattle.size.specs.Place.{wide, base};

use crate::{Size, store_length, width};

// From a row of a plane to the next.
pub fn stride(size: Size, plane: usize) -> usize
    ensures { result ≡ wide size plane }
{
    let across = width(size);
    if plane == 0 { across } else { across / 2 }
}

// Where a plane starts: Y is four sixths of a store, CB and CR one each.
pub fn start(size: Size, plane: usize) -> usize
    requires { plane < 3 }
    ensures { result ≡ base size plane }
{
    let sixth = store_length(size) / 6;
    if plane == 0 { 0 } else { sixth * (plane + 3) }
}
