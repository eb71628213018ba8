// The swap of a record (line H36).
ghost use Rattle.std.specs.Prelude.{◌≡◌};
ghost use Rattle.construction.specs.Machine.{write};

use construction::cells::{Record, SwappedCell};
use construction::simulations::Item;

// Lines H33 to H36: the record of an item, swapped to the item's value under a gate number.
pub fn write(cell: Record, item: Item, number: u64) -> SwappedCell<Record>
    ensures { result ≡ write cell item number }
{
    let expected = item.cell;
    let new = cells::rewritten(expected, item.value, number);
    cells::swap(cell, expected, new)
}
