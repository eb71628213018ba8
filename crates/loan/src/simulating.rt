// The program of an announcement runs on the numbers of items by `helping::simulation::simulate`; its state stays in the block.
ghost use Rattle.std.specs.Prelude.{◌≡◌, min};
ghost use Rattle.construction.specs.Machine.{after_pause};
ghost use Rattle.block.specs.Layout.{put_simulation};
ghost use Rattle.loan.specs.Simulated.{begun_in, simulated_in, simulated_loan, Simulates};

use crate::dictionaries::items_of;
use crate::fetching::BlockText;
use block::cells::variable_count;
use block::own::{last, put_simulation, simulation};
use construction::accesses::Control;
use construction::cells::Announcement;
use construction::simulations::{Pause, Simulation};
use helping::after_pause;
use helping::numbers::Numbers;
use helping::simulation::simulate;

// The program of an announcement, in its text under a gate number, goes on from a state; where it stands still its state is put into the block.
fn resume(
    b: &mut [u64],
    i: u8,
    number: u64,
    a: Announcement,
    s: Simulation,
    numbers: &mut Numbers,
) -> Pause
    ensures told { Simulates b.old b.new i number a s numbers.old.keys (min numbers.old.end 32) numbers.old.values numbers.new.values result }
    ensures end { numbers.new.end ≡ numbers.old.end }
{
    let n = variable_count(b);
    let text = BlockText::under(b, a.program, number);
    let paused = simulate(n, &text, a.words, s, numbers);
    put_simulation(b, i, paused.simulation);
    paused.pause
}

// Lines P18 and H1: the program of an announcement begins on no items. The answer is where process i goes on.
pub fn begin(b: &mut [u64], i: u8, number: u64, cell: Announcement) -> Control
    ensures { (b.new ≡ put_simulation b.old i (begun_in b.old number cell).simulation) × (result ≡ after_pause number (begun_in b.old number cell).dictionary (begun_in b.old number cell).pause) }
{
    let mut numbers = Numbers::none();
    let pause = resume(b, i, number, cell, opening::started(), &mut numbers);
    after_pause(pause, 0, 0)
}

// Lines H20 to H30: the simulation of process i goes on, on the items that it has noted. The answer is where the process goes on.
pub fn go_on(b: &mut [u64], l: &mut [u64], i: u8, number: u64) -> Control
    ensures { (b.new ≡ put_simulation b.old i (simulated_in b.old l.old i number).simulation) × (l.new ≡ simulated_loan b.old l.old i number) × (result ≡ after_pause number (simulated_in b.old l.old i number).dictionary (simulated_in b.old l.old i number).pause) }
{
    let span = items_of(b, l, i);
    let a = last(b, i);
    let state = simulation(b, i);
    let mut numbers = Numbers::none();
    span.get_numbers(l, &mut numbers);
    let pause = resume(b, i, number, a, state, &mut numbers);
    span.put_values(l, &numbers.values);
    let next = span.next_write(l, number, 0);
    after_pause(pause, next, span.end)
}
