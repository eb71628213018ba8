// A session of the bench program (document 01, "The bench program"): a card text and a calls text to the printed text, on slices.
// It rests on the crates commands (the lines, read and printed), reader (the card text), card (the requests), changing (changes of programs),
// tracing (what is told of a step), grammar (stores into a buffer) and construction (types and definitions). Every public function is total, and
// its contract gives its whole result and every byte of the buffer.
#![tactic(auto)]

pub mod running; // running.rt: the session, as many whole lines at a time as a buffer takes

use commands::Command;
use construction::answers::Answer;
use construction::card::Card;

// A session under way: the card, the place of the next command and the number of its line.
#[derive(Clone, Copy)]
pub struct State {
    pub card: Card,
    pub at: usize,
    pub line: u64,
}

// What was printed into a buffer: its length, and the session after it.
#[derive(Clone, Copy)]
pub struct Printed {
    pub state: State,
    pub length: usize,
}

// A command carried out and not printed: the command, its answer, and the session after it.
#[derive(Clone, Copy)]
pub struct Advanced {
    pub state: State,
    pub command: Command,
    pub answer: Answer,
}
