// Machines that share one processor, over lists of requests (document 02, order 14): what the theorems of the crate allowance say of cards in parts of lent
// words, that each machine answers as it would alone, so that every theorem on one card speaks of each machine (order 10), and 5 and 19 by their numbers.
// Definitions and theorems; no function. It rests on the crates construction, allowance, shared_processor, lent_runs (one card in lent words) and those
// below them.
#![tactic(auto)]
