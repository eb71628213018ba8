// A test program over the crate lent: it lends a row of four records and a gate, makes won, lost and refused swaps,
// compares every cell afterwards, and prints a line for each case. It rests on the crates construction, answers, cells, lent and report.
#![tactic(auto)]

ghost use Rattle.std.specs.Prelude.{◌≡◌, ◌<◌};
ghost use Rattle.construction.specs.Cells.{swap_gate};
ghost use Rattle.lent.specs.Row.{row_answer, row_after};
ghost use Rattle.lent_demo.specs.Rows.{record_of, first_row, new_record, held_gate, free_gate, same_at, same_row};

use answers::put_row_swap;
use construction::answers::Refusal;
use construction::cells::{Gate, Record, SwappedCell};
use host::show;

// A row that came back from a loan, and what the swap answered.
#[derive(Clone, Copy)]
struct Returned {
    row: [Record; 4],
    answer: Result<bool, Refusal>,
}

// The row is lent for one swap.
fn swap_in_four(mut row: [Record; 4], place: usize, expected: Record, new: Record) -> Returned
    ensures { (result.row ≡ row_after row place expected new) × (result.answer ≡ row_answer row place expected new) }
{
    let answer = lent::swap_in_row(&mut row, place, expected, new);
    Returned { row, answer }
}

// The gate is lent for one swap.
fn swap_gate(mut gate: Gate, expected: Gate, new: Gate) -> SwappedCell<Gate>
    ensures { (result.cell ≡ (swap_gate gate expected new).cell) × (result.won ≡ (swap_gate gate expected new).won) }
{
    let won = lent::swap_lent_gate(&mut gate, expected, new);
    SwappedCell { cell: gate, won }
}

fn record(val0: u32, val1: u32, toggle: bool, seq: u64) -> Record
    ensures { result ≡ record_of val0 val1 toggle seq }
{
    Record {
        val0,
        val1,
        toggle,
        seq,
    }
}

// Four records; each differs from the first in one field.
fn first_row() -> [Record; 4]
    ensures { result ≡ first_row }
{
    let first = record(1, 2, false, 5);
    let second = record(1, 2, true, 5);
    let third = record(1, 2, false, 6);
    let fourth = record(3, 2, false, 5);
    [first, second, third, fourth]
}

// The record that a swap puts in: it differs from each of them.
fn new_record() -> Record
    ensures { result ≡ new_record }
{
    record(9, 8, true, 7)
}

// The gate that is lent.
fn held_gate() -> Gate
    ensures { result ≡ held_gate }
{
    Gate {
        holder: Some(1),
        seq: 7,
    }
}

// The gate that a swap puts in.
fn free_gate() -> Gate
    ensures { result ≡ free_gate }
{
    Gate {
        holder: None,
        seq: 8,
    }
}

fn same_at(a: [Record; 4], b: [Record; 4], k: usize) -> bool
    requires { k < 4 }
    ensures { result ≡ same_at a b k }
{
    a[k] == b[k]
}

fn same_row(a: [Record; 4], b: [Record; 4]) -> bool
    ensures { result ≡ same_row a b }
{
    same_at(a, b, 0) && (same_at(a, b, 1) && (same_at(a, b, 2) && same_at(a, b, 3)))
}

fn write_answer(rt: &impl Print, answer: Result<bool, Refusal>) {
    let mut text = [0u8; 29];
    let length = put_row_swap(&mut text, 0, answer);
    show(rt, &text[..length]);
}

fn write_verdict(rt: &impl Print, same: bool) {
    if same {
        show(rt, b",as wanted\n");
    } else {
        show(rt, b",differs\n");
    }
}

// Lends the first row for a swap and compares the whole row with the one that is wanted.
fn row_case(
    rt: &impl Print,
    label: &[u8],
    place: usize,
    expected: Record,
    new: Record,
    wanted: [Record; 4],
) {
    let after = swap_in_four(first_row(), place, expected, new);
    show(rt, label);
    write_answer(rt, after.answer);
    write_verdict(rt, same_row(after.row, wanted));
}

// A swap that is to win: only the named record changes.
fn won_row(rt: &impl Print, label: &[u8], place: usize) {
    if place < 4 {
        let row = first_row();
        let mut wanted = row;
        wanted[place] = new_record();
        row_case(rt, label, place, row[place], new_record(), wanted);
    }
}

// A swap that wins and changes its record, compared with the row as it was: the comparison tells them apart.
fn changed_row(rt: &impl Print, label: &[u8], place: usize) {
    if place < 4 {
        let row = first_row();
        row_case(rt, label, place, row[place], new_record(), row);
    }
}

// A swap that expects the first record and is to change nothing.
fn kept_row(rt: &impl Print, label: &[u8], place: usize) {
    let row = first_row();
    row_case(rt, label, place, row[0], new_record(), row);
}

fn gate_case(rt: &impl Print, label: &[u8], expected: Gate, wanted: Gate) {
    let after = swap_gate(held_gate(), expected, free_gate());
    show(rt, label);
    if after.won {
        show(rt, b"won");
    } else {
        show(rt, b"lost");
    }
    write_verdict(rt, after.cell == wanted);
}

fn gate_cases(rt: &impl Print) {
    let held = held_gate();
    gate_case(rt, b"gate,equal,", held, free_gate());
    gate_case(rt, b"gate,the gate as it was,", held, held);
    gate_case(
        rt,
        b"gate,other seq,",
        Gate {
            holder: Some(1),
            seq: 6,
        },
        held,
    );
    gate_case(
        rt,
        b"gate,other process,",
        Gate {
            holder: Some(0),
            seq: 7,
        },
        held,
    );
    gate_case(
        rt,
        b"gate,nobody,",
        Gate {
            holder: None,
            seq: 7,
        },
        held,
    );
}

fn main(rt: HostRuntime) {
    won_row(&rt, b"row,0,equal", 0);
    won_row(&rt, b"row,2,equal", 2);
    won_row(&rt, b"row,3,equal", 3);
    changed_row(&rt, b"row,3,the row as it was", 3);
    kept_row(&rt, b"row,1,other toggle", 1);
    kept_row(&rt, b"row,2,other seq", 2);
    kept_row(&rt, b"row,3,other value", 3);
    kept_row(&rt, b"row,4,past the end", 4);
    kept_row(
        &rt,
        b"row,18446744073709551615,past the end",
        18446744073709551615,
    );
    gate_cases(&rt);
}
