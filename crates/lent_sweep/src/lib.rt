// Steps by a schedule, a process called again as soon as its operation returns (document 02, order 12), on a card in lent words. It rests on the crates
// construction (types and definitions), answers, block, calls (the table of calls), loan, lent_card (the call), lent_steps (the step) and machine.
#![tactic(auto)]

pub mod counting; // counting.rt: what is counted
pub mod running; // running.rt: the run over a schedule

// What a run comes to: the accepted steps; of the operations that returned those done, those done as faults, and those exited; and the most own steps
// that one of them told.
#[derive(Clone, Copy)]
pub struct Counts {
    pub accepted: u64,
    pub done: u64,
    pub faulted: u64,
    pub exited: u64,
    pub longest: u64,
}
