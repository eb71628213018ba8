// The accesses of a step on a card that stands in lent words (document 02, order 10): each takes what it needs out of the block, has the functions on
// small values that the by-value card uses do the work, and puts back what changed. It rests on the crates construction (types and definitions), block
// (the parts of a block) and machine (the accesses on small values).
#![tactic(auto)]

pub mod announcement; // announcement.rt: the accesses of an announcement
pub mod counting; // counting.rt: the step counted
pub mod gate; // gate.rt: the accesses of the gate
