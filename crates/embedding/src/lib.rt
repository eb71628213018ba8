// The card for programs in C (include/lace_card.h): the requests on lent words, with numbers and slices as parameters and a small number as the answer. A
// slice crosses the boundary as a pointer and a length. Each function hands its arguments to the function of the same name below and its answer back
// as numbers (specs/Numbers). It asks nothing of its caller but what the types say: each pointer is valid for its length, and what may be written
// overlaps nothing else. It rests on the crates construction (types and definitions), labels, answers, block, calls, loan, lent_card, lent_steps,
// lent_sweep, lent_text and wait_table; of order 14 on allowance, allowance_words and shared_processor.
#![tactic(auto)]

mod machines; // machines.rt: requests to machines that share one processor
mod numbers; // numbers.rt: an answer as a status, and its numbers into a lent array
mod requesting; // requesting.rt: open, call, exit request, step, trace, read, change, write
mod running; // running.rt: the run over a schedule
mod sizes; // sizes.rt: words to lend, and the longest wait
