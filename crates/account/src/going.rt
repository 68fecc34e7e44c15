// How a program's run goes on after a write.
ghost use Rattle.std.specs.Prelude.{◌≡◌};
ghost use Rattle.account.specs.Going.{going_after_write};
ghost use Rattle.account.specs.declared.Failure.TheVariants.{Unwritten};

use crate::Failure;
use std::io;

// It goes on where all was written, and else ends.
pub fn written(all: io::Result<()>) -> Result<(), Failure>
    ensures { result ≡ going_after_write Unwritten all }
{
    match all {
        Ok(()) => Ok(()),
        Err(why) => Err(Failure::Unwritten(why)),
    }
}
