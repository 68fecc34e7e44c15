// Codewords read by entries that settle them: one look at the table, and one at how many bits are left.
ghost use Rattle.std.specs.Prelude.{◌≡◌, ◌≤◌};
ghost use Rattle.bits.specs.Settled.{settled_field};

use crate::FieldRead;
use refusals::{Reason, Refusal, Table};

// The codeword at `at`, by the entry for its first bits, of a table in which nothing follows a codeword.
pub fn word(table: Table, entry: u16, count: usize, at: usize) -> FieldRead<u32>
    requires { at ≤ count }
    ensures { result ≡ settled_field table entry count at }
{
    let size = (entry % 32) as usize;
    if count - at < size {
        return FieldRead::Refused(Refusal {
            reason: Reason::BitsEnd,
            place: at,
        });
    }
    let meaning = entry / 32;
    if meaning == 0 {
        return FieldRead::Refused(Refusal {
            reason: Reason::NoCodeword(table),
            place: at,
        });
    }
    FieldRead::Got((meaning - 1) as u32, at + size)
}
