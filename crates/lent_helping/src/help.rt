// The start of a help (lines P16 to P18 and H1), by process i.
ghost use Rattle.std.specs.Prelude.{◌≡◌};
ghost use Rattle.lent_helping.specs.Helps.{help_begun, help_passed, help_step};

use block::cells::announcement;
use block::own::{control, last_gate, put_control, put_last, put_mask, put_noted};
use construction::accesses::{Control, Label};
use construction::cells::Announcement;
use helping::helps;
use loan::simulating::begin;
use machine::places::holder_of;

// Lines P18 and H1: the program of the announcement begins, and nothing is noted.
fn put_begun(b: &mut [u64], i: u8, number: u64, cell: Announcement)
    ensures { b.new ≡ help_begun b.old i number cell }
{
    let control = begin(b, i, number, cell);
    put_noted(b, i, 0);
    put_mask(b, i, 0);
    put_last(b, i, cell);
    put_control(b, i, control);
}

// Line P17: there is nothing to help.
fn put_passed(b: &mut [u64], i: u8, cell: Announcement)
    ensures { b.new ≡ help_passed b.old i cell }
{
    let passed = Control {
        place: Label::P21,
        ..control(b, i)
    };
    put_last(b, i, cell);
    put_control(b, i, passed);
}

// Line P16: the announcement of the gate's holder is read.
pub fn step_help(b: &mut [u64], i: u8)
    ensures { b.new ≡ help_step b.old i }
{
    let gate = last_gate(b, i);
    let cell = announcement(b, holder_of(gate.holder));
    if helps(cell, gate.seq) {
        put_begun(b, i, gate.seq, cell);
    } else {
        put_passed(b, i, cell);
    }
}
