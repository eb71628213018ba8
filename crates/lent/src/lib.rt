// The two public swaps on cells that their owner lends (document 01, 'Shared cells'): one on a gate, one on one place of a row of records.
// It rests on the crates construction (types and definitions) and cells (the swaps by value).
#![tactic(auto)]

ghost use Rattle.std.specs.Prelude.{◌≡◌};
ghost use Rattle.construction.specs.Cells.{swap_gate};
ghost use Rattle.construction.specs.Answers.{row_fields};
ghost use Rattle.lent.specs.Row.{row_answer, row_after, swap_fields};

use construction::answers::Refusal;
use construction::cells::{Gate, Record};

// Swaps the gate that its owner lends; it alone may change.
pub fn swap_lent_gate(gate: &mut Gate, expected: Gate, new: Gate) -> bool
    ensures { (result ≡ (swap_gate gate.old expected new).won) × (gate.new ≡ (swap_gate gate.old expected new).cell) }
{
    let after = cells::swap(*gate, expected, new);
    *gate = after.cell;
    after.won
}

// Swaps the record at one place of a row that its owner lends; that record alone may change.
pub fn swap_in_row(
    row: &mut [Record],
    place: usize,
    expected: Record,
    new: Record,
) -> Result<bool, Refusal>
    ensures { (result ≡ row_answer row.old place expected new) × (row.new ≡ row_after row.old place expected new) × (row_fields result ≡ swap_fields row.old place expected new) }
{
    if row.len() <= place {
        return Err(Refusal::NoPlace);
    }
    let after = cells::swap(row[place], expected, new);
    row[place] = after.cell;
    Ok(after.won)
}
