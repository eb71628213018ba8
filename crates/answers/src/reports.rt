// What is printed of a report (construction, specs/Reports), put into a buffer.
ghost use Rattle.std.specs.Prelude.{◌≡◌, ◌∷◌, [], ◌+◌, ◌≤◌};
ghost use Rattle.grammar.specs.Writing.{Put};
ghost use Rattle.construction.specs.Reports.{label_text, cell_text, swap_byte, report_text};

use crate::put_number;
use construction::accesses::{Cell, Label, Swap};
use construction::answers::Report;
use grammar::writing::{put_byte, put_decimal};
use labels::label_row;

// Whether a swap won, lost or was none: 1, 0 or -.
pub fn swap_byte(swap: Swap) -> u8
    ensures { result ≡ swap_byte swap }
{
    match swap {
        Swap::None => b'-',
        Swap::Lost => b'0',
        Swap::Won => b'1',
    }
}

// A comma and a byte.
fn put_letter(buffer: &mut [u8], at: usize, letter: u8) -> usize
    ensures { Put buffer.old at (44 ∷ letter ∷ []) result buffer.new × (result ≤ at + 2) }
{
    let next = put_byte(buffer, at, b',');
    put_byte(buffer, next, letter)
}

// A label.
pub fn put_label(buffer: &mut [u8], at: usize, label: Label) -> usize
    ensures { Put buffer.old at (label_text label) result buffer.new × (result ≤ at + 22) }
{
    let row = label_row(label);
    let next = put_letter(buffer, at, row.letter);
    put_decimal(buffer, next, row.number as u64)
}

// A cell: the gate, or an announcement or a record with its number.
pub fn put_cell(buffer: &mut [u8], at: usize, cell: Cell) -> usize
    ensures { Put buffer.old at (cell_text cell) result buffer.new × (result ≤ at + 22) }
{
    match cell {
        Cell::None => put_letter(buffer, at, b'-'),
        Cell::Gate => put_letter(buffer, at, b'G'),
        Cell::Announcement(m) => put_number(buffer, at, b",A", m as u64),
        Cell::Record(v) => put_number(buffer, at, b",R", v as u64),
    }
}

// A report; nothing of no access.
pub fn put_report(buffer: &mut [u8], at: usize, report: Report) -> usize
    ensures { Put buffer.old at (report_text report) result buffer.new × (result ≤ at + 109) }
{
    let label = report.label;
    let cell = report.cell;
    let swap = report.swap;
    let row = label_row(label);
    if row.letter == 0 {
        return at;
    }
    let i = put_label(buffer, at, label);
    let j = put_cell(buffer, i, cell);
    let k = put_letter(buffer, j, swap_byte(swap));
    let l = put_number(buffer, k, b",", report.number);
    let m = put_number(buffer, l, b",", report.noted);
    put_number(buffer, m, b",", report.count as u64)
}
