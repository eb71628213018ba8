// The shared cells of document 01 by value: the swap, and the new cells that steps store.
// It rests on the crate construction, which declares the types and defines each result.
#![tactic(auto)]

ghost use Rattle.std.specs.Prelude.{◌≡◌};
ghost use Rattle.construction.specs.Cells.{swap_by, released, current, previous, rewritten, is_done};

use construction::cells::{Flag, Gate, Record, SwappedCell};

pub fn is_done(flag: Flag) -> bool
    ensures { result ≡ is_done flag }
{
    matches!(flag, Flag::Done)
}

// A swap by value: the cell afterwards, and whether the swap won. It 'compares the whole cell with the expected one, stores the new one if equal,
// and tells which' (document 01, 'Shared cells').
pub fn swap<T: PartialEq + Copy>(cell: T, expected: T, new: T) -> SwappedCell<T>
    ensures { result ≡ swap_by T.eq cell expected new }
{
    let won = cell == expected;
    SwappedCell {
        cell: if won { new } else { cell },
        won,
    }
}

// The gate that lines P21 and F3 store: nobody's, with the next number.
pub fn released(gate: Gate) -> Gate
    ensures { result ≡ released gate }
{
    Gate {
        holder: None,
        seq: std::num::wrapping_add_u64(gate.seq, 1),
    }
}

// val[toggle] of a record.
pub fn current(cell: Record) -> u32
    ensures { result ≡ current cell }
{
    if cell.toggle { cell.val1 } else { cell.val0 }
}

// val[1 - toggle] of a record.
pub fn previous(cell: Record) -> u32
    ensures { result ≡ previous cell }
{
    if cell.toggle { cell.val0 } else { cell.val1 }
}

// The record that line H36 stores (lines H33 to H35): the value stands at the other place, the toggle is turned.
pub fn rewritten(cell: Record, value: u32, seq: u64) -> Record
    ensures { result ≡ rewritten cell value seq }
{
    if cell.toggle {
        Record {
            val0: value,
            val1: cell.val1,
            toggle: false,
            seq,
        }
    } else {
        Record {
            val0: cell.val0,
            val1: value,
            toggle: true,
            seq,
        }
    }
}
