// The accesses of a helper on a card that stands in lent words (document 02, order 10), and any access of a step: each takes what it needs out of the block
// and the loan, has the functions on small values that the by-value card uses do the work, and puts back what changed. It rests on the crates
// construction (types and definitions), block (the parts of a block), loan (dictionaries and the simulation on them), lent_machine (the other accesses),
// machine, helping and dictionary (small values).
// Block, loan and process stay three arguments (b, l, i) for the reason that crate loan has.
#![tactic(auto)]

pub mod access; // access.rt: any access of a step
pub mod help; // help.rt: the start of a help
pub mod note; // note.rt: a record read and noted
pub mod write; // write.rt: a record written
