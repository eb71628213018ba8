// Refusals, answers and reports.
use crate::accesses::{Cell, Label, Swap};
use crate::card::Card;
use crate::cells::Yield;

// Why something is refused: rows 1 to 11 of document 01's table, 12 and 13 of document 02, order 8, 14 of its order 9, 15 and 16 of its order 11,
// 17 of its order 13, and 18 and 19 of its order 14.
#[derive(Clone, Copy)]
pub enum Refusal {
    TooLong,
    Malformed,
    OutOfRange,
    UnknownCode,
    NoProcess,
    NoProgram,
    Busy,
    NotBusy,
    NoPlace,
    LimitReached,
    ShortBuffer,
    OperandOutOfRange,
    UnusedOperand,
    TooHeavy,
    NotAhead,
    Unsettled,
    TooLarge,
    BadTerms,
    NoAllowance,
}

// The answer to a call, an exit request, a step, a read or a change. Done covers document 02's `fault` (order 6): what it yields tells which. A change is
// refused with a line of its text (order 11).
// Not a Result: what may not change (document 01 lists these answers, and `act`, `answer_fields` and the theorems speak of them); judging in crate requests gives one.
#[derive(Clone, Copy)]
pub enum Answer {
    Taken,
    Run,
    Done {
        number: u64,
        yields: Yield,
        steps: u64,
    },
    Exited {
        steps: u64,
    },
    Value(u32),
    Refused(Refusal),
    RefusedAt {
        refusal: Refusal,
        line: u64,
    },
}

// The card after an entry, with the answer.
// A struct of its own and no generic pair with `Traced`: what may not change (`step`, `trace` and `untold` of specs, and the theorems on them, name the fields).
#[derive(Clone, Copy)]
pub struct Answered {
    pub card: Card,
    pub answer: Answer,
}

// What is told of a step (document 02, order 1): the label of the access made, the cell touched, the swap, the gate number last read in that
// operation, the variables that its helping has noted so far, bit v for variable v, and how many these are.
#[derive(Clone, Copy)]
pub struct Report {
    pub label: Label,
    pub cell: Cell,
    pub swap: Swap,
    pub number: u64,
    pub noted: u64,
    pub count: u32,
}

// The card after a step that is traced, with its answer and its report.
#[derive(Clone, Copy)]
pub struct Traced {
    pub card: Card,
    pub answer: Answer,
    pub report: Report,
}
