// The universal construction of Chuong, Ellen and Ramachandran (2010) as document 01 condenses it: types in src/, definitions in specs/,
// laws and theorems in proofs/. It has no function, so that editing code never checks the theorems again. It rests on the crate grammar.
#![tactic(auto)]

pub mod accesses; // accesses.rt: the paper's labels, and the shared access of each
pub mod answers; // answers.rt: refusals, answers and reports
pub mod card; // card.rt: the card
pub mod cells; // cells.rt: the shared cells, and what a swap of one gives back
pub mod programs; // programs.rt: instructions, their codes and programs
pub mod simulations; // simulations.rt: a program that a helper runs, and its dictionary
pub mod texts; // texts.rt: the card text: its lines, its reading, its writing
