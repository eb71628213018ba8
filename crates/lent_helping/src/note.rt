// A record read and noted (lines H21 to H25), by process i.
ghost use Rattle.std.specs.Prelude.{◌≡◌};
ghost use Rattle.construction.specs.Machine.{go_to};
ghost use Rattle.codes.specs.Types.{P19};
ghost use Rattle.block.specs.Layout.{control_in, put_control};
ghost use Rattle.loan.specs.Simulated.{simulated_loan};
ghost use Rattle.lent_helping.specs.Helps.{put_marked, gone_on, noted_block, noted_loan, note_block, note_loan};

use block::cells::record;
use block::own::{control, last_gate, mask, put_control, put_mask};
use construction::accesses::{Control, Label};
use construction::simulations::Item;
use dictionary::{item_of, with_bit};
use loan::dictionaries::insert;
use loan::simulating::go_on;

// Document 02, order 1: one variable more in the set of the variables noted.
fn put_marked(b: &mut [u64], i: u8, v: u8)
    ensures { b.new ≡ put_marked b.old i v }
{
    let marked = with_bit(mask(b, i), v);
    put_mask(b, i, marked);
}

// Lines H20 to H30: the simulation goes on.
fn put_gone_on(b: &mut [u64], l: &mut [u64], i: u8, number: u64)
    ensures { (b.new ≡ gone_on b.old l.old i number) × (l.new ≡ simulated_loan b.old l.old i number) }
{
    let control = go_on(b, l, i, number);
    put_control(b, i, control);
}

// Lines H23 to H25: a record is noted, and the simulation goes on.
fn put_item(b: &mut [u64], l: &mut [u64], i: u8, number: u64, item: Item)
    ensures { (b.new ≡ noted_block b.old l.old i number item) × (l.new ≡ noted_loan b.old l.old i number item) }
{
    put_marked(b, i, item.variable);
    insert(b, l, i, item);
    put_gone_on(b, l, i, number);
}

// A newer record is not noted.
fn put_newer(b: &mut [u64], i: u8)
    ensures { b.new ≡ put_control b.old i (go_to (control_in b.old i) P19) }
{
    let passed = Control {
        place: Label::P19,
        ..control(b, i)
    };
    put_control(b, i, passed);
}

// Line H21: the record that the simulation lacks is read.
pub fn step_note(b: &mut [u64], l: &mut [u64], i: u8)
    ensures { (b.new ≡ note_block b.old l.old i) × (l.new ≡ note_loan b.old l.old i) }
{
    let gate = last_gate(b, i);
    let v = control(b, i).target;
    let cell = record(b, v);
    if gate.seq < cell.seq {
        put_newer(b, i);
    } else {
        put_item(b, l, i, gate.seq, item_of(gate.seq, v, cell));
    }
}
