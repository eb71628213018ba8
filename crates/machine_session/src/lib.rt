// A session of the program `machines` (document 02, order 14): the terms, the cards of the machines and a calls text to the printed text, on slices. The cards
// stand in lent words, 1456 for the block of each machine and 768 for its loan; what the machines share is the allowance, by value. It rests on the crates
// machine_terms (the terms), machine_commands (the lines, read and printed), shared_processor (cards and requests in lent words), allowance (a turn), session
// (the numbers of lines) and commands. Every public function is total, and its contract gives its whole result, every lent word and every byte of the buffer.
#![tactic(auto)]

pub mod answering; // answering.rt: the answer to a request
pub mod starting; // starting.rt: where a session starts
pub mod running; // running.rt: its lines, as many at a time as a buffer has room for

use allowance::Allowance;
use construction::texts::RefusedAt;

// A session under way, besides its words: the allowance, the place of the next request and the number of its line.
#[derive(Clone, Copy)]
pub struct State {
    pub allowance: Allowance,
    pub at: usize,
    pub line: u64,
}

// What was printed into a buffer: its length, and the session after it.
#[derive(Clone, Copy)]
pub struct Printed {
    pub state: State,
    pub length: usize,
}

// The verdict on the cards: on the first that is refused, which is that of a machine by its number.
#[derive(Clone, Copy)]
pub struct CardsOpened {
    pub machine: u32,
    pub verdict: Result<(), RefusedAt>,
}
