// The lines of the program `machines` (document 02, order 14), one at a time, on slices: the request at a place of a calls text, and the printed lines. A
// command of the bench program has the number of its machine after the verb; `turn` is a line by itself. It rests on the crates commands (verbs, fields and
// commands), answers and grammar. Every public function is total, and its contract gives its whole result and every byte of the buffer.
#![tactic(auto)]

pub mod reading; // reading.rt: the request at a place of a calls text
pub mod printing; // printing.rt: the printed lines

use commands::Command;

// A command to a machine, or a new turn. The number of the machine of a malformed command says nothing.
#[derive(Clone, Copy)]
pub enum Request {
    To { machine: u32, command: Command },
    Turn,
}

// The request at a place, how many lines it takes, and the place past them.
#[derive(Clone, Copy)]
pub struct Line {
    pub request: Request,
    pub lines: u64,
    pub next: usize,
}
