// The requests of document 01 and the change of document 02, order 11, on small values: whether one is taken and what a step answers, whether an
// operation is behind a gate number, what a read shows, and what stands at a place that may lie past the room of an array. It rests on
// the crates construction (types and definitions), cells, labels, machine and opening.
#![tactic(auto)]

pub mod behind; // behind.rt: whether an operation under way is behind a gate number
pub mod judging; // judging.rt: whether a request is taken, and the answer to a step
pub mod reading; // reading.rt: what a read shows
pub mod lookups; // lookups.rt: places past the room of an array
