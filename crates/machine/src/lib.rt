// One shared access (specs/Machine of the crate construction) on small values: which access a place makes, and what it does to one
// shared cell and to what its process keeps. No function of it takes or returns a card or a dictionary.
// It rests on the crates construction (types and definitions), cells and labels.
#![tactic(auto)]

pub mod announcement; // announcement.rt: the accesses of an announcement, and the announcements that they store
pub mod cell; // cell.rt: what a process goes on with after an access of a cell of any kind
pub mod gate; // gate.rt: the accesses of the gate
pub mod places; // places.rt: the access of each place, and the choices between places
pub mod record; // record.rt: the swap of a record

ghost use Rattle.std.specs.Prelude.{◌≡◌};
ghost use Rattle.construction.specs.Machine.{outcome};

use construction::accesses::Swap;

// Whether a swap won, as the result of an access.
pub fn outcome(won: bool) -> Swap
    ensures { result ≡ outcome won }
{
    if won { Swap::Won } else { Swap::Lost }
}
