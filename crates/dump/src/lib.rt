// The value change dump of document 02, order 7: the types of its reader. The definitions of writer and reader stand in specs/, their theorems in
// proofs/; there is no function. It rests on the crates grammar (decimals, words at a place) and construction (the card and its runs).
#![tactic(auto)]

use construction::texts::RefusedAt;

// A line after the header: a time, a value of a variable, each with the place past the line, or neither. An `Option` of a `Found` around the first two is no
// plainer: every rule and every theorem on a line (specs/Reading, specs/Judging) takes the three cases side by side, and would take them in two steps.
#[derive(Clone, Copy)]
pub enum DumpLine {
    Time {
        time: u64,
        next: usize,
    },
    Value {
        variable: u8,
        value: u32,
        next: usize,
    },
    Malformed,
}

// What is read of the header so far: the variables, the place of the next line and its number.
#[derive(Clone, Copy)]
pub struct Header {
    pub verdict: Result<(), RefusedAt>,
    pub count: u8,
    pub at: usize,
    pub line: u64,
}

// What is read after the header so far: the place of the next line and its number, the time, the variable from which on values may follow within it,
// the values at this time, and those after the step that was asked for.
#[derive(Clone, Copy)]
pub struct Progress {
    pub verdict: Result<(), RefusedAt>,
    pub at: usize,
    pub line: u64,
    pub time: u64,
    pub next: u8,
    pub values: [u32; 64],
    pub shown: [u32; 64],
}

// What the reader gives: how many variables there are, the last time, and the values after the step that was asked for.
#[derive(Clone, Copy)]
pub struct Readings {
    pub verdict: Result<(), RefusedAt>,
    pub count: u8,
    pub last: u64,
    pub values: [u32; 64],
}
