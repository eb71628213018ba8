// An accepted step of process i is counted: of the card, and of its operation.
ghost use Rattle.std.specs.Prelude.{◌≡◌};
ghost use Rattle.lent_machine.specs.Accesses.{counted};

use block::cells::{put_steps, steps};
use block::own::{count, put_count};

// Counts have 64 bits.
pub fn put_counted(b: &mut [u64], i: u8)
    ensures { b.new ≡ counted b.old i }
{
    let steps = std::num::wrapping_add_u64(steps(b), 1);
    let own = std::num::wrapping_add_u64(count(b, i), 1);
    put_steps(b, steps);
    put_count(b, i, own);
}
