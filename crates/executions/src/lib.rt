// Every short schedule (document 02, order 13): the listing of a card's executions, its text and its refusals as definitions (specs/), the condition of a
// schedule apart from the listing, and the theorems over every card, calls and length (proofs/Statements). It has no function. It rests on the crates
// grammar (decimals) and construction, which defines the machine and demand 3.
#![tactic(auto)]

use construction::cells::Words;

// A call that is to be made: its program, as a request names it, and its inputs.
#[derive(Clone, Copy)]
pub struct Request {
    pub program: u32,
    pub inputs: Words,
}
