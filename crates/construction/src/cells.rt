// The shared cells, and what a swap of one gives back.

// The gate: the process whose operation all processes help, none where nobody holds it, and its number.
#[derive(Clone, Copy, PartialEq, Eq)]
pub struct Gate {
    pub holder: Option<u8>,
    pub seq: u64,
}

// The state of an announced operation.
#[derive(Clone, Copy, PartialEq, Eq)]
pub enum Flag {
    Done,
    Active,
    Exit,
}

// Four words: inputs, outputs or registers.
#[derive(Clone, Copy, PartialEq, Eq)]
pub struct Words {
    pub w0: u32,
    pub w1: u32,
    pub w2: u32,
    pub w3: u32,
}

// What an operation yields: four outputs, and whether it ended as a fault (document 02, order 6).
// Not an Option of the outputs: what may not change (`yield_of` of specs/Cells takes words and mark of an announcement as they stand, in a block too).
#[derive(Clone, Copy, PartialEq, Eq)]
pub struct Yield {
    pub outputs: Words,
    pub fault: bool,
}

// The announcement of a process. Its words are the inputs, and the outputs once it is done; it is marked if it was done as a fault. Its number is the gate number under which it was done, 0 while it is active or exit and at opening.
// The number 0 is no None: what may not change (`open_announcement` of specs/Cells, and the word of a block for it, document 02, order 10).
#[derive(Clone, Copy, PartialEq, Eq)]
pub struct Announcement {
    pub program: u8,
    pub flag: Flag,
    pub seq: u64,
    pub number: u64,
    pub words: Words,
    pub fault: bool,
}

// The record of a variable. The toggle is true for 1.
#[derive(Clone, Copy, PartialEq, Eq)]
pub struct Record {
    pub val0: u32,
    pub val1: u32,
    pub toggle: bool,
    pub seq: u64,
}

// A cell after a swap, and whether the swap won.
// Not a Result: what may not change (`swap_by` of specs/Cells gives the cell of a swap that lost too, and its users go on with it either way).
#[derive(Clone, Copy)]
pub struct SwappedCell<T> {
    pub cell: T,
    pub won: bool,
}
