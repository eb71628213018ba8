// The card in lent words (document 02, order 10): the requests on a block. Each takes out of the block what it needs, has the functions on small values
// that the by-value card uses judge it, and puts back what changed. It rests on the crates construction (types and definitions), answers, block, texts,
// machine, reader and requests.
#![tactic(auto)]

pub mod changing; // changing.rt: change of a program
pub mod narrow; // narrow.rt: numbers of processes and programs as bytes
pub mod requesting; // requesting.rt: call, exit request and read
