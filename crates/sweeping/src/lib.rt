// A sweep of the pattern room (document 02, order 12) on slices: what the two files say, the steps in pieces, and the lines that are printed at the end. It rests
// on the crates grammar, construction (types and definitions), commands (the lines), calls (the table of calls), xorshift (the schedule), lent_text, lent_card,
// lent_sweep (the run), block, answers, reports and wait_table. Every public function is total, and its contract gives its whole result and everything lent.
#![tactic(auto)]

pub mod pieces; // pieces.rt: the steps in pieces
pub mod printing; // printing.rt: the lines at the end
pub mod starting; // starting.rt: the files judged, every process called

use lent_sweep::Counts;

// What the files come to: the length of the line that is printed instead of a sweep, 0 where there is one, and the table of calls. It is no Result, as `Starts`
// tells the table of a refusal too, and `started_sweep` speaks of the length.
#[derive(Clone, Copy)]
pub struct Started {
    pub length: usize,
    pub table: [u32; 40],
}

// A sweep on its way: the number drawn last, the steps that are left, and what was counted.
#[derive(Clone, Copy)]
pub struct Progress {
    pub x: u64,
    pub left: u64,
    pub counts: Counts,
}
