// The card.
use crate::accesses::Control;
use crate::cells::{Announcement, Gate, Record, Words};
use crate::programs::Program;
use crate::simulations::{Dictionary, Simulation};

// What a call asked for.
#[derive(Clone, Copy)]
pub struct Operation {
    pub program: u8,
    pub inputs: Words,
}

// The card: its text, the shared cells, and the local state of each process.
#[derive(Clone, Copy)]
pub struct Card {
    // document 01: p, n, s and the step limit
    pub process_count: u8,
    pub variable_count: u8,
    pub program_count: u8,
    pub limit: u64,
    // the starting values, and the sheets
    pub starts: [u32; 64],
    pub programs: [Program; 8],
    // of each sheet (document 02, order 11): the gate number from which its later text holds, the text below it, and the later one.
    // At opening the number is 0 and both are the opening text. Three arrays, so that a step copies one program out.
    pub from: [u64; 8],
    pub earlier: [Program; 8],
    pub later: [Program; 8],
    // the shared cells: the gate, the announcement of each process, the record of each variable
    pub gate: Gate,
    pub announcements: [Announcement; 8],
    pub records: [Record; 64],
    // the accepted steps of the card
    pub steps: u64,
    // of each process: the access of its next step, and what its call asked for
    pub controls: [Control; 8],
    pub operations: [Operation; 8],
    // the wish to exit, and the own steps of the operation
    pub exits: [bool; 8],
    pub counts: [u64; 8],
    // the gate and the announcement that it last read (the paper's g and a)
    pub gates_read: [Gate; 8],
    pub announcements_read: [Announcement; 8],
    // the sheet that it runs in helping, with registers and what it yields; its book of noted records
    pub simulations: [Simulation; 8],
    pub dictionaries: [Dictionary; 8],
    // the variables that stand in its book, one bit each
    pub masks: [u64; 8],
}
