// What a process keeps.
ghost use Rattle.std.specs.Prelude.{◌≡◌};
ghost use Rattle.construction.specs.Parts.{idle_control, no_operation, no_gate};
ghost use Rattle.block.specs.Layout.{control_in, put_control, operation_in, put_operation, exit_in, put_exit, count_in, put_count, last_gate_in, put_last_gate, last_in, put_last, simulation_in, put_simulation, mask_in, put_mask, noted_in, put_noted};

use crate::cells::room;
use crate::numbers::{number, put_number};
use crate::parts::{put_row, row_at};
use codes::{bit, byte, odd};
use construction::accesses::{Control, Label};
use construction::card::Operation;
use construction::cells::{Announcement, Gate};
use construction::simulations::Simulation;

// A process without an operation.
fn idle_control() -> Control
    ensures { result ≡ idle_control }
{
    Control {
        place: Label::Idle,
        target: 0,
    }
}

fn no_operation() -> Operation
    ensures { result ≡ no_operation }
{
    Operation {
        program: 0,
        inputs: opening::zeros(),
    }
}

fn no_gate() -> Gate
    ensures { result ≡ no_gate }
{
    Gate {
        holder: None,
        seq: 0,
    }
}

// The control of a process.
pub fn control(b: &[u64], i: u8) -> Control
    ensures { result ≡ control_in b.now i }
{
    row_at(b, 336, 8, i, idle_control())
}

pub fn put_control(b: &mut [u64], i: u8, value: Control)
    ensures { b.new ≡ put_control b.old i value }
{
    put_row(b, 336, 8, i, value);
}

// The operation that a process was called with.
pub fn operation(b: &[u64], i: u8) -> Operation
    ensures { result ≡ operation_in b.now i }
{
    row_at(b, 352, 8, i, no_operation())
}

pub fn put_operation(b: &mut [u64], i: u8, value: Operation)
    ensures { b.new ≡ put_operation b.old i value }
{
    put_row(b, 352, 8, i, value);
}

// Whether a process is asked to exit.
pub fn exit(b: &[u64], i: u8) -> bool
    ensures { result ≡ exit_in b.now i }
{
    odd(number(b, 392, 8, i))
}

pub fn put_exit(b: &mut [u64], i: u8, value: bool)
    ensures { b.new ≡ put_exit b.old i value }
{
    put_number(b, 392, 8, i, bit(value));
}

// The own steps of an operation.
pub fn count(b: &[u64], i: u8) -> u64
    ensures { result ≡ count_in b.now i }
{
    number(b, 400, 8, i)
}

pub fn put_count(b: &mut [u64], i: u8, value: u64)
    ensures { b.new ≡ put_count b.old i value }
{
    put_number(b, 400, 8, i, value);
}

// The gate that a process last read (the paper's g).
pub fn last_gate(b: &[u64], i: u8) -> Gate
    ensures { result ≡ last_gate_in b.now i }
{
    row_at(b, 408, 8, i, no_gate())
}

pub fn put_last_gate(b: &mut [u64], i: u8, value: Gate)
    ensures { b.new ≡ put_last_gate b.old i value }
{
    put_row(b, 408, 8, i, value);
}

// The announcement that a process last read (the paper's a).
pub fn last(b: &[u64], i: u8) -> Announcement
    ensures { result ≡ last_in b.now i }
{
    row_at(b, 424, 8, i, opening::open_announcement())
}

pub fn put_last(b: &mut [u64], i: u8, value: Announcement)
    ensures { b.new ≡ put_last b.old i value }
{
    put_row(b, 424, 8, i, value);
}

// The simulation of a process.
pub fn simulation(b: &[u64], i: u8) -> Simulation
    ensures { result ≡ simulation_in b.now i }
{
    row_at(b, 496, 8, i, opening::started())
}

pub fn put_simulation(b: &mut [u64], i: u8, value: Simulation)
    ensures { b.new ≡ put_simulation b.old i value }
{
    put_row(b, 496, 8, i, value);
}

// The set of the variables that a process has noted.
pub fn mask(b: &[u64], i: u8) -> u64
    ensures { result ≡ mask_in b.now i }
{
    number(b, 584, 8, i)
}

pub fn put_mask(b: &mut [u64], i: u8, value: u64)
    ensures { b.new ≡ put_mask b.old i value }
{
    put_number(b, 584, 8, i, value);
}

// How many items a process has noted: at most w.
pub fn noted(b: &[u64], i: u8) -> u8
    ensures { result ≡ noted_in b.now i }
{
    byte(number(b, 576, 8, i)).min(room(b))
}

pub fn put_noted(b: &mut [u64], i: u8, value: u8)
    ensures { b.new ≡ put_noted b.old i value }
{
    put_number(b, 576, 8, i, value as u64);
}
