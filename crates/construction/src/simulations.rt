// A program that a helper runs, and its dictionary.
use crate::cells::{Record, Words, Yield};

// An item of a dictionary (document 01: noted record): a variable, its record as read, and its value in the simulation.
#[derive(Clone, Copy)]
pub struct Item {
    pub variable: u8,
    pub value: u32,
    pub cell: Record,
}

// The dictionary D of the paper (document 01: book): the first `length` items, in order of first touch.
#[derive(Clone, Copy)]
pub struct Dictionary {
    pub length: u8,
    pub items: [Item; 32],
}

// The state of a running program.
#[derive(Clone, Copy)]
pub struct Simulation {
    pub counter: u8,
    pub registers: Words,
    pub yields: Yield,
}

// Why a simulation stands still: its program ended, or ended as a fault, or its dictionary lacks a variable.
#[derive(Clone, Copy)]
pub enum Pause {
    Ended,
    Faulted,
    Lacks(u8),
}

// A simulation that was taken as far as its dictionary lets it.
#[derive(Clone, Copy)]
pub struct Simulated {
    pub pause: Pause,
    pub simulation: Simulation,
    pub dictionary: Dictionary,
}
