// The lines of the bench program (document 01, "The bench program"), one at a time, on slices: the command at a place of a calls text, and the
// printed line of a command with its answer, put into a buffer. It rests on the crates grammar (fields and decimals), answers (the fields of
// answers and reports) and construction (types and definitions). Every public function is total, and its contract gives its whole result and
// every byte of the buffer.
#![tactic(auto)]

pub mod reading; // reading.rt: the command at a place of a calls text
pub mod printing; // printing.rt: the printed lines

use construction::cells::Words;

// The verb that a line begins with.
// Unknown is a verb, and no None: what may not change (`verb_at` of specs/Commands gives the place after it too, as for every verb).
#[derive(Clone, Copy)]
pub enum Verb {
    Call,
    Exit,
    Step,
    Trace,
    Read,
    Change,
    Unknown,
}

// A command, with its own fields only.
// Malformed is a command, and no Err: what may not change (a session answers it as the others, with a printed line: `executed`, `head_fields` of the specs take it among them).
#[derive(Clone, Copy)]
pub enum Command {
    Call {
        process: u32,
        program: u32,
        inputs: Words,
    },
    Exit {
        process: u32,
    },
    Step {
        process: u32,
    },
    Trace {
        process: u32,
    },
    Read {
        variable: u32,
    },
    // The text of a change stands in the calls text, from `start` to `end`.
    Change {
        program: u32,
        from: u32,
        count: u32,
        start: usize,
        end: usize,
    },
    Malformed,
}

// The command at a place, how many lines it takes, and the place past them.
#[derive(Clone, Copy)]
pub struct Parsed {
    pub command: Command,
    pub lines: u64,
    pub next: usize,
}
