// The accesses of an announcement, by process i.
ghost use Rattle.std.specs.Prelude.{◌≡◌};
ghost use Rattle.construction.specs.Machine.{first_choice};
ghost use Rattle.block.specs.Layout.{put_announcement, process_count_in, last_gate_in};
ghost use Rattle.lent_machine.specs.Accesses.{announcement_accessed, if_won, announcement_read, announcement_swapped, announce_step, withdraw_step, finish_step, flag_step, announcement_step};

use block::cells::{announcement, process_count, put_announcement};
use block::own::{control, last, last_gate, operation, put_control, put_last, simulation};
use construction::accesses::{AccessedCell, AnnouncementAccess, Label, Swap};
use construction::cells::{Announcement, Flag};
use machine::announcement::{announce, finish, read_flag, withdraw};
use machine::places::{first_choice, holder_of};

// An announcement was read.
fn put_read(b: &mut [u64], i: u8, x: AccessedCell<Announcement>)
    ensures { b.new ≡ announcement_read b.old i x }
{
    let read = x.read;
    let control = x.control;
    put_last(b, i, read);
    put_control(b, i, control);
}

// The announcement of process m is stored where its swap won.
fn put_won(b: &mut [u64], m: u8, swap: Swap, cell: Announcement)
    ensures { b.new ≡ if_won swap (put_announcement b.old m cell) b.old }
{
    match swap {
        Swap::None => {}
        Swap::Lost => {}
        Swap::Won => put_announcement(b, m, cell),
    }
}

// The announcement of process m was swapped.
fn put_swapped(b: &mut [u64], i: u8, m: u8, x: AccessedCell<Announcement>) -> Swap
    ensures { (b.new ≡ announcement_swapped b.old i m x) × (result ≡ x.swap) }
{
    let swap = x.swap;
    let cell = x.cell;
    let control = x.control;
    put_won(b, m, swap, cell);
    put_control(b, i, control);
    swap
}

// Lines P2 and P3.
fn step_announce(b: &mut [u64], i: u8)
    ensures { b.new ≡ announce_step b.old i }
{
    let x = announce(operation(b, i), last_gate(b, i), control(b, i));
    let cell = x.cell;
    put_announcement(b, i, cell);
    put_read(b, i, x);
}

// Line P6.
fn step_withdraw(b: &mut [u64], i: u8) -> Swap
    ensures { (b.new ≡ withdraw_step b.old i) × (result ≡ (announcement_accessed AnnouncementAccess.Withdraw b.old i).swap) }
{
    let x = withdraw(
        announcement(b, i),
        operation(b, i),
        last(b, i),
        control(b, i),
    );
    put_swapped(b, i, i, x)
}

// Lines P7, C2, C4 and P22: the flag of the announcement of process m.
fn step_flag(b: &mut [u64], i: u8, m: u8, done: Label, active: Label, exit: Label)
    ensures { b.new ≡ flag_step b.old i m done active exit }
{
    let x = read_flag(announcement(b, m), m, done, active, exit);
    put_read(b, i, x);
}

// Line C1: the process whose turn it is.
fn first(b: &[u64], i: u8) -> u8
    ensures { result ≡ first_choice (last_gate_in b.now i).seq (process_count_in b.now) }
{
    let gate = last_gate(b, i);
    first_choice(gate.seq, process_count(b))
}

// Lines P19 and P20: the announcement of the gate's holder.
fn step_finish(flag: Flag, next: Label, b: &mut [u64], i: u8) -> Swap
    ensures { (b.new ≡ finish_step flag next b.old i) × (result ≡ (announcement_accessed (AnnouncementAccess.Finish flag next) b.old i).swap) }
{
    let gate = last_gate(b, i);
    let holder = gate.holder;
    let m = holder_of(holder);
    let s = simulation(b, i);
    let yields = s.yields;
    let x = finish(
        flag,
        next,
        announcement(b, m),
        gate,
        last(b, i),
        yields,
        control(b, i),
    );
    put_swapped(b, i, m, x)
}

// Any of them, and its swap.
pub fn step_announcement(access: AnnouncementAccess, b: &mut [u64], i: u8) -> Swap
    ensures { (b.new ≡ announcement_step access b.old i) × (result ≡ (announcement_accessed access b.old i).swap) }
{
    match access {
        AnnouncementAccess::Announce => {
            step_announce(b, i);
            Swap::None
        }
        AnnouncementAccess::Withdraw => step_withdraw(b, i),
        AnnouncementAccess::ReadOwn { done, active, exit } => {
            step_flag(b, i, i, done, active, exit);
            Swap::None
        }
        AnnouncementAccess::ReadFirst => {
            let m = first(b, i);
            step_flag(b, i, m, Label::C4, Label::P13, Label::C4);
            Swap::None
        }
        AnnouncementAccess::Finish { flag, next } => step_finish(flag, next, b, i),
    }
}
