// A record written (line H36), by process i.
ghost use Rattle.std.specs.Prelude.{◌≡◌};
ghost use Rattle.construction.specs.Machine.{outcome};
ghost use Rattle.lent_helping.specs.Helps.{written_in, record_swapped, write_step};

use block::cells::{put_record, record};
use block::own::{control, last_gate, put_control};
use construction::accesses::Swap;
use construction::cells::{Record, SwappedCell};
use loan::dictionaries::writing;
use machine::outcome;
use machine::record::write;

// The record of variable v is stored where its swap won.
fn put_swapped(b: &mut [u64], v: u8, x: SwappedCell<Record>)
    ensures { b.new ≡ record_swapped b.old v x }
{
    if x.won {
        put_record(b, v, x.cell);
    }
}

// The loan is only read.
pub fn step_write(b: &mut [u64], l: &[u64], i: u8) -> Swap
    ensures { (b.new ≡ write_step b.old l.now i) × (result ≡ outcome (written_in b.old l.now i).won) }
{
    let gate = last_gate(b, i);
    let writing = writing(b, l, i, gate.seq, control(b, i));
    let v = writing.item.variable;
    let swapped = write(record(b, v), writing.item, gate.seq);
    put_swapped(b, v, swapped);
    put_control(b, i, writing.control);
    outcome(swapped.won)
}
