// The card in a block of 1456 words that its owner lends (document 02, order 10): each part of the card taken out of the block and put back. Where
// each part stands is in specs/Layout. A block that is too short holds nothing: what is taken out of it is as in the card of a refused text, and
// nothing is put into it. It rests on the crates construction (types and definitions), codes (values as words) and opening.
#![tactic(auto)]

pub mod numbers; // numbers.rt: whether a part is there; parts of one word
pub mod parts; // parts.rt: part i of n of a kind
pub mod cells; // cells.rt: the counts of the card and the shared cells
pub mod own; // own.rt: what a process keeps
pub mod texts; // texts.rt: the starting values, and from which number the later texts hold
