// The counts of the card, and its shared cells.
ghost use Rattle.std.specs.Prelude.{◌≡◌};
ghost use Rattle.construction.specs.Cells.{open_gate};
ghost use Rattle.block.specs.Layout.{process_count_in, put_process_count, variable_count_in, put_variable_count, program_count_in, put_program_count, limit_in, put_limit, steps_in, put_steps, room_in, put_room, gate_in, put_gate, announcement_in, put_announcement, record_in, put_record};

use crate::numbers::{number, put_number};
use crate::parts::{put_row, row_at};
use codes::byte;
use construction::cells::{Announcement, Gate, Record};

// Each getter and setter has a name of its own, one line over a generic one: what may not change (public functions, each with its definition of specs/Layout).
// How many processes the card has.
pub fn process_count(b: &[u64]) -> u8
    ensures { result ≡ process_count_in b.now }
{
    byte(number(b, 0, 1, 0))
}

pub fn put_process_count(b: &mut [u64], value: u8)
    ensures { b.new ≡ put_process_count b.old value }
{
    put_number(b, 0, 1, 0, value as u64);
}

// How many variables.
pub fn variable_count(b: &[u64]) -> u8
    ensures { result ≡ variable_count_in b.now }
{
    byte(number(b, 1, 1, 0))
}

pub fn put_variable_count(b: &mut [u64], value: u8)
    ensures { b.new ≡ put_variable_count b.old value }
{
    put_number(b, 1, 1, 0, value as u64);
}

// How many programs.
pub fn program_count(b: &[u64]) -> u8
    ensures { result ≡ program_count_in b.now }
{
    byte(number(b, 2, 1, 0))
}

pub fn put_program_count(b: &mut [u64], value: u8)
    ensures { b.new ≡ put_program_count b.old value }
{
    put_number(b, 2, 1, 0, value as u64);
}

// The step limit.
pub fn limit(b: &[u64]) -> u64
    ensures { result ≡ limit_in b.now }
{
    number(b, 3, 1, 0)
}

pub fn put_limit(b: &mut [u64], value: u64)
    ensures { b.new ≡ put_limit b.old value }
{
    put_number(b, 3, 1, 0, value);
}

// The accepted steps.
pub fn steps(b: &[u64]) -> u64
    ensures { result ≡ steps_in b.now }
{
    number(b, 4, 1, 0)
}

pub fn put_steps(b: &mut [u64], value: u64)
    ensures { b.new ≡ put_steps b.old value }
{
    put_number(b, 4, 1, 0, value);
}

// w, the room of each dictionary.
pub fn room(b: &[u64]) -> u8
    ensures { result ≡ room_in b.now }
{
    number(b, 7, 1, 0).min(32) as u8
}

pub fn put_room(b: &mut [u64], value: u8)
    ensures { b.new ≡ put_room b.old value }
{
    put_number(b, 7, 1, 0, value as u64);
}

// The gate at opening.
fn open_gate() -> Gate
    ensures { result ≡ open_gate }
{
    Gate {
        holder: None,
        seq: 1,
    }
}

// The gate.
pub fn gate(b: &[u64]) -> Gate
    ensures { result ≡ gate_in b.now }
{
    row_at(b, 5, 1, 0, open_gate())
}

pub fn put_gate(b: &mut [u64], value: Gate)
    ensures { b.new ≡ put_gate b.old value }
{
    put_row(b, 5, 1, 0, value);
}

// The announcement of process m.
pub fn announcement(b: &[u64], m: u8) -> Announcement
    ensures { result ≡ announcement_in b.now m }
{
    row_at(b, 8, 8, m, opening::open_announcement())
}

pub fn put_announcement(b: &mut [u64], m: u8, value: Announcement)
    ensures { b.new ≡ put_announcement b.old m value }
{
    put_row(b, 8, 8, m, value);
}

// The record of variable v.
pub fn record(b: &[u64], v: u8) -> Record
    ensures { result ≡ record_in b.now v }
{
    row_at(b, 80, 64, v, opening::open_record(0))
}

pub fn put_record(b: &mut [u64], v: u8, value: Record)
    ensures { b.new ≡ put_record b.old v value }
{
    put_row(b, 80, 64, v, value);
}
