// The paper's labels, and the shared access of each.
use crate::cells::Flag;
use crate::simulations::{Dictionary, Item, Simulation};

// A label of the paper, which is both where a process stands, the access that its next step makes, and what is told of a step, the access made (document 01,
// 'One step'). Idle is no access. P5 is the top of the loop, a place only: its access is P6 or P10. P6 is an access only, and the place of no process.
#[derive(Clone, Copy, PartialEq, Eq)]
pub enum Label {
    Idle,
    P1,
    P3,
    P5,
    P7,
    P10,
    C2,
    C4,
    P13,
    P14,
    P16,
    H21,
    H36,
    P19,
    P20,
    P21,
    P22,
    F1,
    F3,
    P6,
}

// A row of the table of labels: the letter of its procedure and the number of its line, as the paper writes them; whether the variables noted are told there; and
// the word that stands for it in a block (document 02, order 10).
// Idle has 0 for letter and number, and no Option: what may not change (`label_row` of specs/Labels and the theorems of a report's text speak of `letter ≡ 0`).
#[derive(Clone, Copy)]
pub struct LabelRow {
    pub letter: u8,
    pub number: u8,
    pub noting: bool,
    pub word: u64,
}

// An access of the gate: a read with the places that follow if the gate is held or free, the last read (F1),
// a swap that gives the gate to the nominee (P13), or one that releases it (P21, F3).
#[derive(Clone, Copy)]
pub enum GateAccess {
    Read { held: Label, free: Label },
    ReadLast,
    Nominate,
    Release { next: Label },
}

// An access of an announcement: the announcing write (P3), the exit request (P6), a read of one's own with the places that follow
// its flag (P7, C4, P22), the read of the one whose turn it is (C2), or a swap to done (P19, P20).
#[derive(Clone, Copy)]
pub enum AnnouncementAccess {
    Announce,
    Withdraw,
    ReadOwn {
        done: Label,
        active: Label,
        exit: Label,
    },
    ReadFirst,
    Finish {
        flag: Flag,
        next: Label,
    },
}

// The shared access of a step: none, one of the gate or of an announcement, the read of an announcement that helping begins with (P16),
// the read of a record that is noted (H21), or the swap of a record (H36).
// Not an Option of the other kinds: what may not change (`Access.None` stands in the theorems of Statements, as OneAccess, side by side with the five).
#[derive(Clone, Copy)]
pub enum Access {
    None,
    Gate(GateAccess),
    Announcement(AnnouncementAccess),
    Help,
    Note,
    Write,
}

// A shared cell, or none: the gate, the announcement of a process, the record of a variable.
// Not an Option of the three: what may not change (`Cell.None` stands in the theorems of Statements/OneAccess, side by side with them).
#[derive(Clone, Copy)]
pub enum Cell {
    None,
    Gate,
    Announcement(u8),
    Record(u8),
}

// Whether a step swapped a cell, and whether the swap won.
// Not an `Option<bool>`: what may not change (`Swap.None` in the theorems of Statements/Paths), and no plainer, as true would have to be read as won.
#[derive(Clone, Copy)]
pub enum Swap {
    None,
    Lost,
    Won,
}

// What a process goes on with: its place, the label of its next access, and its target, the nominee at P13, the variable at H21, the item of
// the dictionary at H36.
#[derive(Clone, Copy)]
pub struct Control {
    pub place: Label,
    pub target: u8,
}

// A cell after an access, and what the process goes on with: the cell last read, its control; and the swap.
#[derive(Clone, Copy)]
pub struct AccessedCell<T> {
    pub cell: T,
    pub read: T,
    pub control: Control,
    pub swap: Swap,
}

// What a process goes on with that began to help (P16 to P18): its control and its simulation.
#[derive(Clone, Copy)]
pub struct Begun {
    pub control: Control,
    pub simulation: Simulation,
}

// What a helper goes on with after a record was read (H21).
#[derive(Clone, Copy)]
pub struct Helped {
    pub control: Control,
    pub simulation: Simulation,
    pub dictionary: Dictionary,
    pub mask: u64,
}

// What a helper writes (H36), and its control afterwards.
#[derive(Clone, Copy)]
pub struct Writing {
    pub item: Item,
    pub control: Control,
}
