// The access of each place (lines P1 to P24, C1 to C6, F1 to F4, H21, H36), and the choices that the lines make between places.
ghost use Rattle.std.specs.Prelude.{◌≡◌};
ghost use Rattle.construction.specs.Machine.{access_of, go_to, by_holder, by_flag, holder_of, first_choice, after_last};
ghost use Rattle.construction.specs.Requests.{is_idle};

use construction::accesses::{Access, AnnouncementAccess, Control, GateAccess, Label};
use construction::cells::Flag;

// Lines P1, P10 and P14: the gate is read.
fn read_gate(held: Label, free: Label) -> Access
    ensures { result ≡ Access.Gate (GateAccess.Read held free) }
{
    Access::Gate(GateAccess::Read { held, free })
}

// Lines P21 and F3: the gate is released.
fn release(next: Label) -> Access
    ensures { result ≡ Access.Gate (GateAccess.Release next) }
{
    Access::Gate(GateAccess::Release { next })
}

// Lines P7, C4 and P22: one's own announcement is read.
fn read_own(done: Label, active: Label, exit: Label) -> Access
    ensures { result ≡ Access.Announcement (AnnouncementAccess.ReadOwn done active exit) }
{
    Access::Announcement(AnnouncementAccess::ReadOwn { done, active, exit })
}

// Lines P19 and P20: the announcement of the gate's holder is swapped to done.
fn finish(flag: Flag, next: Label) -> Access
    ensures { result ≡ Access.Announcement (AnnouncementAccess.Finish flag next) }
{
    Access::Announcement(AnnouncementAccess::Finish { flag, next })
}

// Lines P5, P6 and P10: with an exit request P6, without one P10.
fn top(exit: bool) -> Access
    ensures { result ≡ access_of Label.P5 exit }
{
    if exit {
        return Access::Announcement(AnnouncementAccess::Withdraw);
    }
    read_gate(Label::P16, Label::C2)
}

// The access of each place.
pub fn access_of(place: Label, exit: bool) -> Access
    ensures { result ≡ access_of place exit }
{
    match place {
        Label::Idle => Access::None,
        Label::P1 => read_gate(Label::P3, Label::P3),
        Label::P3 => Access::Announcement(AnnouncementAccess::Announce),
        Label::P5 => top(exit),
        Label::P7 => read_own(Label::F1, Label::P10, Label::P10),
        Label::P10 => read_gate(Label::P16, Label::C2),
        Label::C2 => Access::Announcement(AnnouncementAccess::ReadFirst),
        Label::C4 => read_own(Label::F1, Label::P13, Label::P13),
        Label::P13 => Access::Gate(GateAccess::Nominate),
        Label::P14 => read_gate(Label::P16, Label::P22),
        Label::P16 => Access::Help,
        Label::H21 => Access::Note,
        Label::H36 => Access::Write,
        Label::P19 => finish(Flag::Active, Label::P20),
        Label::P20 => finish(Flag::Exit, Label::P21),
        Label::P21 => release(Label::P22),
        Label::P22 => read_own(Label::F1, Label::P5, Label::Idle),
        Label::F1 => Access::Gate(GateAccess::ReadLast),
        Label::F3 => release(Label::Idle),
        Label::P6 => Access::Announcement(AnnouncementAccess::Withdraw),
    }
}

// Whether a process at a place has no operation under way.
pub fn is_idle(place: Label) -> bool
    ensures { result ≡ is_idle place }
{
    place == Label::Idle
}

// A control at another place, with its target kept.
pub fn go_to(control: Control, place: Label) -> Control
    ensures { result ≡ go_to control place }
{
    Control { place, ..control }
}

// Lines P11 and P15.
pub fn by_holder(holder: Option<u8>, held: Label, free: Label) -> Label
    ensures { result ≡ by_holder holder held free }
{
    if holder.is_some() { held } else { free }
}

// Lines P4, P8, P23, C3 and C5.
pub fn by_flag(flag: Flag, done: Label, active: Label, exit: Label) -> Label
    ensures { result ≡ by_flag flag done active exit }
{
    match flag {
        Flag::Done => done,
        Flag::Active => active,
        Flag::Exit => exit,
    }
}

// Lines F2 and F4.
pub fn after_last(holder: Option<u8>, process: u8) -> Label
    ensures { result ≡ after_last holder process }
{
    if holder == Some(process) {
        Label::F3
    } else {
        Label::Idle
    }
}

// The process that holds a gate, 0 where nobody does.
pub fn holder_of(holder: Option<u8>) -> u8
    ensures { result ≡ holder_of holder }
{
    holder.unwrap_or(0)
}

// Line C1: the process whose turn it is.
pub fn first_choice(seq: u64, process_count: u8) -> u8
    ensures { result ≡ first_choice seq process_count }
{
    if 0 < process_count {
        let m = seq % (process_count as u64);
        return m as u8;
    }
    0
}
