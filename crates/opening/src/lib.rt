// What stands at opening, by value: the opening value of each part of a card, and the card of given contents as its text opens it
// (document 01, "Shared cells"). It rests on the crate construction, which declares the types and defines each result.
#![tactic(auto)]

ghost use Rattle.std.specs.Prelude.{◌≡◌, map};
ghost use Rattle.construction.specs.Cells.{zeros, open_announcement, open_record};
ghost use Rattle.construction.specs.Instructions.{started, no_line, no_program};
ghost use Rattle.construction.specs.Dictionary.{no_item, empty};
ghost use Rattle.construction.specs.Opening.{fresh};

use construction::accesses::{Control, Label};
use construction::card::{Card, Operation};
use construction::cells::{Announcement, Flag, Gate, Record, Words, Yield};
use construction::programs::{Instruction, Line, Program};
use construction::simulations::{Dictionary, Item, Simulation};
use construction::texts::Contents;

pub fn zeros() -> Words
    ensures { result ≡ zeros }
{
    Words {
        w0: 0,
        w1: 0,
        w2: 0,
        w3: 0,
    }
}

pub fn open_announcement() -> Announcement
    ensures { result ≡ open_announcement }
{
    Announcement {
        program: 0,
        flag: Flag::Done,
        seq: 0,
        number: 0,
        words: zeros(),
        fault: false,
    }
}

// The record of a variable with this starting value.
pub fn open_record(start: u32) -> Record
    ensures { result ≡ open_record start }
{
    Record {
        val0: start,
        val1: 0,
        toggle: false,
        seq: 0,
    }
}

// The records of all variables.
fn open_records(starts: [u32; 64]) -> [Record; 64]
    ensures { result ≡ map open_record starts }
{
    let mut records = [open_record(0); 64];
    // `starts.map(open_record)`: tried, and the proof did not close by itself; the loop needs no answer.
    for k in 0..64usize {
        records[k] = open_record(starts[k]);
    }
    records
}

// What stands at a place of a program past its lines.
pub fn no_line() -> Line
    ensures { result ≡ no_line }
{
    Line {
        instruction: Instruction::Stop,
    }
}

// A program of no lines.
pub fn no_program() -> Program
    ensures { result ≡ no_program }
{
    Program {
        length: 0,
        lines: [no_line(); 32],
    }
}

// The state of a program that starts.
pub fn started() -> Simulation
    ensures { result ≡ started }
{
    Simulation {
        counter: 0,
        registers: zeros(),
        yields: Yield {
            outputs: zeros(),
            fault: false,
        },
    }
}

// What stands at a place of a dictionary that nothing was noted at.
pub fn no_item() -> Item
    ensures { result ≡ no_item }
{
    Item {
        variable: 0,
        value: 0,
        cell: open_record(0),
    }
}

// Line H1.
pub fn empty() -> Dictionary
    ensures { result ≡ empty }
{
    Dictionary {
        length: 0,
        items: [no_item(); 32],
    }
}

// The card of these contents as its text opens it.
pub fn fresh(contents: Contents) -> Card
    ensures { result ≡ fresh contents }
{
    // variables, since a literal takes no array straight from another value's field: tried, and the proof did not close
    let starts = contents.starts;
    let programs = contents.programs;
    let announcement = open_announcement();
    Card {
        process_count: contents.process_count,
        variable_count: contents.variable_count,
        program_count: contents.program_count,
        limit: contents.limit,
        starts,
        programs,
        from: [0; 8],
        earlier: programs,
        later: programs,
        gate: Gate {
            holder: None,
            seq: 1,
        },
        announcements: [announcement; 8],
        records: open_records(starts),
        steps: 0,
        controls: [Control {
            place: Label::Idle,
            target: 0,
        }; 8],
        operations: [Operation {
            program: 0,
            inputs: zeros(),
        }; 8],
        exits: [false; 8],
        counts: [0; 8],
        gates_read: [Gate {
            holder: None,
            seq: 0,
        }; 8],
        announcements_read: [announcement; 8],
        simulations: [started(); 8],
        dictionaries: [empty(); 8],
        masks: [0; 8],
    }
}
