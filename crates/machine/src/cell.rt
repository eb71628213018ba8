// What a process goes on with after an access of a shared cell of any kind. A cell has an equality, by which it is swapped; a card has none, so no card is
// taken and given back here (tests/surface/requests.py).
ghost use Rattle.std.specs.Prelude.{◌≡◌};
ghost use Rattle.construction.specs.Machine.{read_cell, replace_cell};

use crate::outcome;
use construction::accesses::{AccessedCell, Control, Swap};
use construction::cells::SwappedCell;

// The cell was read.
pub fn read_cell<T: PartialEq + Copy>(cell: T, control: Control) -> AccessedCell<T>
    ensures { result ≡ read_cell cell control }
{
    AccessedCell {
        cell,
        read: cell,
        control,
        swap: Swap::None,
    }
}

// The cell was swapped; `last` is the one that the process last read.
pub fn replace_cell<T: PartialEq + Copy>(
    swapped: SwappedCell<T>,
    last: T,
    control: Control,
) -> AccessedCell<T>
    ensures { result ≡ replace_cell swapped last control }
{
    AccessedCell {
        cell: swapped.cell,
        read: last,
        control,
        swap: outcome(swapped.won),
    }
}
