// The accesses of an announcement (lines P3, P6, P7, C2, C4, P19, P20, P22), and the answer of an operation that returns. `last` is the
// announcement that the process last read (the paper's a).
ghost use Rattle.std.specs.Prelude.{◌≡◌};
ghost use Rattle.construction.specs.Machine.{announced, flagged, withdrawn, finished, whose, announce, withdraw, read_flag, finish, access_announcement};
ghost use Rattle.construction.specs.Requests.{returned};

use crate::cell::{read_cell, replace_cell};
use crate::places::{by_flag, first_choice, go_to, holder_of};
use construction::accesses::{AccessedCell, AnnouncementAccess, Control, Label, Swap};
use construction::answers::Answer;
use construction::card::Operation;
use construction::cells::{Announcement, Flag, Gate, Yield};

// Line P2: what a process announces.
pub fn announced(operation: Operation, gate: Gate) -> Announcement
    ensures { result ≡ announced operation gate }
{
    Announcement {
        program: operation.program,
        flag: Flag::Active,
        seq: gate.seq,
        number: 0,
        words: operation.inputs,
        fault: false,
    }
}

// An announcement with another flag.
pub fn flagged(announcement: Announcement, flag: Flag) -> Announcement
    ensures { result ≡ flagged announcement flag }
{
    Announcement {
        flag,
        ..announcement
    }
}

// Line P6: what a process announces that asks to exit. It is done under no gate number, and carries no mark.
pub fn withdrawn(last: Announcement, operation: Operation) -> Announcement
    ensures { result ≡ withdrawn last operation }
{
    let number = 0;
    Announcement {
        program: last.program,
        flag: Flag::Exit,
        seq: last.seq,
        number,
        words: operation.inputs,
        fault: false,
    }
}

// Lines P19 and P20: what a helper makes of the announcement that it helped, under the number of the gate that it last read.
pub fn finished(last: Announcement, gate: Gate, yields: Yield) -> Announcement
    ensures { result ≡ finished last gate yields }
{
    Announcement {
        program: last.program,
        flag: Flag::Done,
        seq: last.seq,
        number: gate.seq,
        words: yields.outputs,
        fault: yields.fault,
    }
}

// Whose announcement an access of a process is of, on a card of so many processes.
pub fn whose(access: AnnouncementAccess, process_count: u8, process: u8, gate: Gate) -> u8
    ensures { result ≡ whose access process_count process gate }
{
    match access {
        AnnouncementAccess::Announce => process,
        AnnouncementAccess::Withdraw => process,
        AnnouncementAccess::ReadOwn { .. } => process,
        AnnouncementAccess::ReadFirst => first_choice(gate.seq, process_count),
        AnnouncementAccess::Finish { .. } => holder_of(gate.holder),
    }
}

// Lines P2 and P3: an operation is announced.
pub fn announce(operation: Operation, gate: Gate, control: Control) -> AccessedCell<Announcement>
    ensures { result ≡ announce operation gate control }
{
    let new = announced(operation, gate);
    AccessedCell {
        cell: new,
        read: new,
        control: go_to(control, Label::P5),
        swap: Swap::None,
    }
}

// Line P6: the process asks to exit.
pub fn withdraw(
    cell: Announcement,
    operation: Operation,
    last: Announcement,
    control: Control,
) -> AccessedCell<Announcement>
    ensures { result ≡ withdraw cell operation last control }
{
    let new = withdrawn(last, operation);
    replace_cell(
        cells::swap(cell, last, new),
        last,
        go_to(control, Label::P7),
    )
}

// Lines P7, C2, C4 and P22: the announcement of process m is read, and its flag says where the process goes on.
pub fn read_flag(
    cell: Announcement,
    m: u8,
    done: Label,
    active: Label,
    exit: Label,
) -> AccessedCell<Announcement>
    ensures { result ≡ read_flag cell m done active exit }
{
    let place = by_flag(cell.flag, done, active, exit);
    read_cell(cell, Control { place, target: m })
}

// Lines P19 and P20: the announcement of the gate's holder is swapped to done.
pub fn finish(
    flag: Flag,
    next: Label,
    cell: Announcement,
    gate: Gate,
    last: Announcement,
    yields: Yield,
    control: Control,
) -> AccessedCell<Announcement>
    ensures { result ≡ finish flag next cell gate last yields control }
{
    let expected = flagged(last, flag);
    let new = finished(last, gate, yields);
    replace_cell(cells::swap(cell, expected, new), last, go_to(control, next))
}

// The accesses of the announcement of process m.
pub fn access_announcement(
    access: AnnouncementAccess,
    m: u8,
    cell: Announcement,
    operation: Operation,
    gate: Gate,
    last: Announcement,
    yields: Yield,
    control: Control,
) -> AccessedCell<Announcement>
    ensures { result ≡ access_announcement access m cell operation gate last yields control }
{
    match access {
        AnnouncementAccess::Announce => announce(operation, gate, control),
        AnnouncementAccess::Withdraw => withdraw(cell, operation, last, control),
        AnnouncementAccess::ReadOwn { done, active, exit } => read_flag(
            cell, m, done, active, exit,
        ),
        AnnouncementAccess::ReadFirst => read_flag(cell, m, Label::C4, Label::P13, Label::C4),
        AnnouncementAccess::Finish { flag, next } => finish(
            flag, next, cell, gate, last, yields, control,
        ),
    }
}

// Lines P23, P24 and F4: the answer of an operation that returns.
pub fn returned(last: Announcement, steps: u64) -> Answer
    ensures { result ≡ returned last last.flag steps }
{
    let flag = last.flag;
    let number = last.number;
    let outputs = last.words;
    let done = Answer::Done {
        number,
        yields: Yield {
            outputs,
            fault: last.fault,
        },
        steps,
    };
    match flag {
        Flag::Done => done,
        Flag::Active => done,
        Flag::Exit => Answer::Exited { steps },
    }
}
