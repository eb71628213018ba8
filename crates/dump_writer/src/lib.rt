// The writer of a value change dump (document 02, order 7): a session from its opening, into a lent buffer or in pieces for a program. It rests on the
// crates grammar (stores into a buffer), construction (the card), answers, commands, machine and requests (commands, answers and what a read shows, on
// small values), reader (the card text), session (the commands carried out) and dump (the definitions). Every public function is total, and its
// contract gives its whole result and every byte of the buffer.
#![tactic(auto)]

mod changes; // changes.rt: the changes between two rows
mod dump_lines; // dump_lines.rt: the lines of a dump
pub mod rows; // rows.rt: what a read shows of every variable of a card
pub mod running; // running.rt: a session as a dump

use session::State;

// The place past what was put, and the time last told.
#[derive(Clone, Copy)]
pub struct Told {
    pub at: usize,
    pub time: u64,
}

// A session under way: its state, the number of variables and their values, the accepted steps and the time last told.
#[derive(Clone, Copy)]
pub struct Course {
    pub session: State,
    pub count: u8,
    pub row: [u32; 64],
    pub steps: u64,
    pub told: u64,
}

// What was put into a buffer, up to a place, and the course after it.
#[derive(Clone, Copy)]
pub struct Piece {
    pub course: Course,
    pub at: usize,
}
