// Machines that share one processor (document 02, order 14), each with a card in its part of lent words (order 10): machine m has the block of 1456 words
// from 1456 × m on, and its loan from stride × m on, where the stride is the caller's. A request is made in place, on the words of its machine alone; what the
// machines share is the allowance, by value. It rests on the crates allowance (the rule), lent_card, lent_steps and lent_text (requests on one card in lent
// words), lent_runs (entries on block and loan) and construction (types and definitions).
#![tactic(auto)]

mod places; // places.rt: where the words of a machine begin and end
pub mod cards; // cards.rt: a card text opened into the block of a machine
pub mod requesting; // requesting.rt: call, exit request, read and change
pub mod stepping; // stepping.rt: step and traced step
