// A step of a card in lent words (document 02, order 10), plain and with its report (order 1): it is judged by what stands in the block, makes its one
// access on block and loan, and is counted. It rests on the crates construction (types and definitions), answers, block, lent_card (numbers as bytes),
// lent_helping (the accesses), loan, machine, reports and requests.
// Block, loan and process stay three arguments (b, l, i) for the reason that crate loan has.
#![tactic(auto)]

pub mod stepping; // stepping.rt: the step
pub mod tracing; // tracing.rt: the step with its report
