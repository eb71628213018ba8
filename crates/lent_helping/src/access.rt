// Any access of a step, by process i, and its swap.
ghost use Rattle.std.specs.Prelude.{◌≡◌};
ghost use Rattle.lent_helping.specs.Steps.{access_block, access_loan, access_swap};

use crate::help::step_help;
use crate::note::step_note;
use crate::write::step_write;
use construction::accesses::{Access, Swap};
use lent_machine::announcement::step_announcement;
use lent_machine::gate::step_gate;

pub fn step_access(access: Access, b: &mut [u64], l: &mut [u64], i: u8) -> Swap
    ensures { (b.new ≡ access_block access b.old l.old i) × (l.new ≡ access_loan access b.old l.old i) × (result ≡ access_swap access b.old l.old i) }
{
    match access {
        Access::None => Swap::None,
        Access::Gate(access) => step_gate(access, b, i),
        Access::Announcement(access) => step_announcement(access, b, i),
        Access::Help => {
            step_help(b, i);
            Swap::None
        }
        Access::Note => {
            step_note(b, l, i);
            Swap::None
        }
        Access::Write => step_write(b, l, i),
    }
}
