// The accesses of the gate, by process i.
ghost use Rattle.std.specs.Prelude.{◌≡◌};
ghost use Rattle.construction.specs.Machine.{read_holder, read_last};
ghost use Rattle.block.specs.Layout.{gate_in, put_gate, control_in};
ghost use Rattle.lent_machine.specs.Accesses.{gate_accessed, if_won, gate_read, gate_swapped, gate_step};

use block::cells::{gate, put_gate};
use block::own::{control, last_gate, put_control, put_last_gate};
use construction::accesses::{AccessedCell, GateAccess, Label, Swap};
use construction::cells::Gate;
use machine::gate::{nominate, read_holder, read_last, release};

// The gate was read.
fn put_read(b: &mut [u64], i: u8, x: AccessedCell<Gate>)
    ensures { b.new ≡ gate_read b.old i x }
{
    let read = x.read;
    let control = x.control;
    put_last_gate(b, i, read);
    put_control(b, i, control);
}

// The gate is stored where its swap won.
fn put_won(b: &mut [u64], swap: Swap, cell: Gate)
    ensures { b.new ≡ if_won swap (put_gate b.old cell) b.old }
{
    match swap {
        Swap::None => {}
        Swap::Lost => {}
        Swap::Won => put_gate(b, cell),
    }
}

// The gate was swapped.
fn put_swapped(b: &mut [u64], i: u8, x: AccessedCell<Gate>) -> Swap
    ensures { (b.new ≡ gate_swapped b.old i x) × (result ≡ x.swap) }
{
    let swap = x.swap;
    let cell = x.cell;
    let control = x.control;
    put_won(b, swap, cell);
    put_control(b, i, control);
    swap
}

// Lines P1, P10 and P14.
fn step_read(b: &mut [u64], i: u8, held: Label, free: Label)
    ensures { b.new ≡ gate_read b.old i (read_holder (gate_in b.old) (control_in b.old i) held free) }
{
    let x = read_holder(gate(b), control(b, i), held, free);
    put_read(b, i, x);
}

// Line F1.
fn step_last(b: &mut [u64], i: u8)
    ensures { b.new ≡ gate_read b.old i (read_last (gate_in b.old) (control_in b.old i) i) }
{
    let x = read_last(gate(b), control(b, i), i);
    put_read(b, i, x);
}

// Line P13.
fn step_nominate(b: &mut [u64], i: u8) -> Swap
    ensures { (b.new ≡ gate_step GateAccess.Nominate b.old i) × (result ≡ (gate_accessed GateAccess.Nominate b.old i).swap) }
{
    let x = nominate(gate(b), last_gate(b, i), control(b, i));
    put_swapped(b, i, x)
}

// Lines P21 and F3.
fn step_release(b: &mut [u64], i: u8, next: Label) -> Swap
    ensures { (b.new ≡ gate_step (GateAccess.Release next) b.old i) × (result ≡ (gate_accessed (GateAccess.Release next) b.old i).swap) }
{
    let x = release(gate(b), last_gate(b, i), control(b, i), next);
    put_swapped(b, i, x)
}

// Any of them, and its swap.
pub fn step_gate(access: GateAccess, b: &mut [u64], i: u8) -> Swap
    ensures { (b.new ≡ gate_step access b.old i) × (result ≡ (gate_accessed access b.old i).swap) }
{
    match access {
        GateAccess::Read { held, free } => {
            step_read(b, i, held, free);
            Swap::None
        }
        GateAccess::ReadLast => {
            step_last(b, i);
            Swap::None
        }
        GateAccess::Nominate => step_nominate(b, i),
        GateAccess::Release { next } => step_release(b, i, next),
    }
}
