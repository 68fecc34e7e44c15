// A description of a picture in three lent slices: its layout and its validity.
#![tactic(auto)]

ghost use Rattle.std.specs.Prelude.{◌≡◌, ◌+◌, ◌≤◌};
ghost use Rattle.h261_description.specs.Vector.{restarts as restarts_at};

// Whether the preceding vector counts as zero, but for a macroblock that isn't MC, which leaves a zero vector behind.
pub fn restarts(address: usize, step: usize) -> bool
    requires { address + step ≤ 33 }
    ensures { result ≡ restarts_at address step }
{
    let to = address + step;
    if to == 1 {
        return true;
    }
    if to == 12 {
        return true;
    }
    if to == 23 {
        return true;
    }
    if step != 1 {
        return true;
    }
    address == 0
}
