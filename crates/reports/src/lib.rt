// What is told of a step (document 02, order 1), on small values: the label of an access, the cell that it touches, whether its swap won, and the report.
// It rests on the crates construction (types and definitions), answers, labels and machine; both representations of the card tell their steps by it.
#![tactic(auto)]

ghost use Rattle.std.specs.Prelude.{◌≡◌, cond};
ghost use Rattle.construction.specs.Machine.{cell_by};
ghost use Rattle.construction.specs.Tracing.{label_of, noted_at, report_with, no_report};
ghost use Rattle.construction.specs.Answers.{is_refused};
ghost use Rattle.reports.specs.Swaps.{announcement_in, record_in, swap_by};

use answers::kinds::is_refused;
use construction::accesses::{Access, Cell, Control, Label, Swap};
use construction::answers::{Answer, Report};
use construction::card::Operation;
use construction::cells::{Announcement, Gate, Record, Yield};
use construction::simulations::Item;
use labels::label_row;
use machine::announcement::{access_announcement, whose};
use machine::gate::access_gate;
use machine::outcome;
use machine::places::holder_of;
use machine::record::write;

// The label of the access of a place: at the top of the loop P6 with an exit request, P10 without one.
pub fn label_of(place: Label, exit: bool) -> Label
    ensures { result ≡ label_of place exit }
{
    if place == Label::P5 {
        if exit { Label::P6 } else { Label::P10 }
    } else {
        place
    }
}

// The word that is told of an access: the variables noted, from H21 to P20.
pub fn noted_at(label: Label, mask: u64) -> u64
    ensures { result ≡ noted_at label mask }
{
    let row = label_row(label);
    if row.noting { mask } else { 0 }
}

// The cell that an access of a process touches, on a card of so many processes: `target` is the variable of H21, `written` that of H36.
pub fn cell_of(
    access: Access,
    process_count: u8,
    process: u8,
    gate: Gate,
    target: u8,
    written: u8,
) -> Cell
    ensures { result ≡ cell_by access process_count process gate target written }
{
    let holder = gate.holder;
    match access {
        Access::None => Cell::None,
        Access::Gate(_) => Cell::Gate,
        Access::Announcement(access) => Cell::Announcement(whose(
            access,
            process_count,
            process,
            gate,
        )),
        Access::Help => Cell::Announcement(holder_of(holder)),
        Access::Note => Cell::Record(target),
        Access::Write => Cell::Record(written),
    }
}

// The process whose announcement a cell is, 0 where it is none.
pub fn announcement_in(cell: Cell) -> u8
    ensures { result ≡ announcement_in cell }
{
    match cell {
        Cell::None => 0,
        Cell::Gate => 0,
        Cell::Announcement(m) => m,
        Cell::Record(_) => 0,
    }
}

// The variable whose record a cell is, 0 where it is none.
pub fn record_in(cell: Cell) -> u8
    ensures { result ≡ record_in cell }
{
    match cell {
        Cell::None => 0,
        Cell::Gate => 0,
        Cell::Announcement(_) => 0,
        Cell::Record(v) => v,
    }
}

// Whether the swap of an access won: of the gate `held`, of the announcement `announced` of process m, or of the record `recorded`.
pub fn swap_of(
    access: Access,
    process: u8,
    m: u8,
    held: Gate,
    announced: Announcement,
    recorded: Record,
    gate: Gate,
    last: Announcement,
    operation: Operation,
    yields: Yield,
    control: Control,
    item: Item,
) -> Swap
    ensures { result ≡ swap_by access process m held announced recorded gate last operation yields control item }
{
    match access {
        Access::None => Swap::None,
        Access::Gate(access) => {
            let after = access_gate(access, process, held, gate, control);
            after.swap
        }
        Access::Announcement(access) => {
            let after = access_announcement(
                access, m, announced, operation, gate, last, yields, control,
            );
            after.swap
        }
        Access::Help => Swap::None,
        Access::Note => Swap::None,
        Access::Write => {
            let swapped = write(recorded, item, gate.seq);
            outcome(swapped.won)
        }
    }
}

// What is told of an access: the count is the count of ones of the word.
pub fn report_with(label: Label, cell: Cell, swap: Swap, number: u64, mask: u64) -> Report
    ensures { result ≡ report_with label cell swap number mask }
{
    let noted = noted_at(label, mask);
    Report {
        label,
        cell,
        swap,
        number,
        noted,
        count: u64::count_ones(noted),
    }
}

// No access.
pub fn no_report() -> Report
    ensures { result ≡ no_report }
{
    Report {
        label: Label::Idle,
        cell: Cell::None,
        swap: Swap::None,
        number: 0,
        noted: 0,
        count: 0,
    }
}

// What is told of a step with this answer: a refused one has no report.
pub fn told(answer: Answer, label: Label, cell: Cell, swap: Swap, number: u64, mask: u64) -> Report
    ensures { result ≡ cond (is_refused answer) no_report (report_with label cell swap number mask) }
{
    if is_refused(answer) {
        return no_report();
    }
    report_with(label, cell, swap, number, mask)
}
