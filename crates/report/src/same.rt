// Whether two cards are the same in every field and in every element of every array.
// No equality is derived up to the card, which would be no plainer: the definition knows an instruction and a place by their words, and that a derived
// equality agrees with it would take more lemmas than the functions below that it saves.
ghost use Rattle.std.specs.Prelude.{◌≡◌, ◌&&◌, ◌<◌};
ghost use Rattle.std.specs.List.{list_all, range_with_len, zip};
ghost use Rattle.construction.specs.Cells.{same_announcement, same_gate, same_record, same_words};
ghost use Rattle.report.specs.Same.{same_instruction, same_line, same_program, same_starts, same_records, same_item, same_dictionary, same_control, same_operation, same_yield, same_simulation};
ghost use Rattle.report.specs.Same.{same_texts, same_work, same_reads, same_at, same_numbers, same_card};

use codes::{instruction_word, place_word};
use construction::accesses::Control;
use construction::card::{Card, Operation};
use construction::cells::{Announcement, Gate, Record, Words, Yield};
use construction::programs::{Instruction, Line, Program};
use construction::simulations::{Dictionary, Item, Simulation};

// Kept since it is public: `a && b` says it.
pub fn both(a: bool, b: bool) -> bool
    ensures { result ≡ (a && b) }
{
    a && b
}

fn same_words(a: Words, b: Words) -> bool
    ensures { result ≡ same_words a b }
{
    a == b
}

fn same_gate(a: Gate, b: Gate) -> bool
    ensures { result ≡ same_gate a b }
{
    a == b
}

fn same_announcement(a: Announcement, b: Announcement) -> bool
    ensures { result ≡ same_announcement a b }
{
    a == b
}

fn same_record(a: Record, b: Record) -> bool
    ensures { result ≡ same_record a b }
{
    a == b
}

fn same_instruction(a: Instruction, b: Instruction) -> bool
    ensures { result ≡ same_instruction a b }
{
    instruction_word(a) == instruction_word(b)
}

fn same_lines(a: [Line; 32], b: [Line; 32]) -> bool
    ensures { result ≡ list_all (λ p. same_line p.0 p.1) (zip a b) }
{
    a.iter()
        .zip(&b)
        .all(|(x, y)| same_instruction(x.instruction, y.instruction))
}

fn same_program(a: Program, b: Program) -> bool
    ensures { result ≡ same_program a b }
{
    a.length == b.length && same_lines(a.lines, b.lines)
}

fn same_starts(a: [u32; 64], b: [u32; 64]) -> bool
    ensures { result ≡ same_starts a b }
{
    a == b
}

fn same_records(a: [Record; 64], b: [Record; 64]) -> bool
    ensures { result ≡ same_records a b }
{
    a == b
}

#[tactic(auto, unfolding(crate::specs::Same::same_item))]
fn same_item(a: Item, b: Item) -> bool
    ensures { result ≡ same_item a b }
{
    a.variable == b.variable && (a.value == b.value && same_record(a.cell, b.cell))
}

fn same_items(a: [Item; 32], b: [Item; 32]) -> bool
    ensures { result ≡ list_all (λ p. same_item p.0 p.1) (zip a b) }
{
    a.iter().zip(&b).all(|(x, y)| same_item(*x, *y))
}

fn same_dictionary(a: Dictionary, b: Dictionary) -> bool
    ensures { result ≡ same_dictionary a b }
{
    a.length == b.length && same_items(a.items, b.items)
}

#[tactic(auto, unfolding(crate::specs::Same::same_control))]
fn same_control(a: Control, b: Control) -> bool
    ensures { result ≡ same_control a b }
{
    place_word(a.place) == place_word(b.place) && a.target == b.target
}

#[tactic(auto, unfolding(crate::specs::Same::same_operation))]
fn same_operation(a: Operation, b: Operation) -> bool
    ensures { result ≡ same_operation a b }
{
    a.program == b.program && same_words(a.inputs, b.inputs)
}

#[tactic(auto, unfolding(crate::specs::Same::same_yield))]
fn same_yield(a: Yield, b: Yield) -> bool
    ensures { result ≡ same_yield a b }
{
    same_words(a.outputs, b.outputs) && a.fault == b.fault
}

#[tactic(auto, unfolding(crate::specs::Same::same_simulation))]
fn same_simulation(a: Simulation, b: Simulation) -> bool
    ensures { result ≡ same_simulation a b }
{
    a.counter == b.counter
        && (same_words(a.registers, b.registers) && same_yield(a.yields, b.yields))
}

// The texts of program i: as it was opened, and as it was changed (document 02, order 11).
#[tactic(auto, unfolding(crate::specs::Same::same_texts))]
fn same_texts(a: Card, b: Card, i: usize) -> bool
    requires { i < 8 }
    ensures { result ≡ same_texts a b i }
{
    same_program(a.programs[i], b.programs[i])
        && (a.from[i] == b.from[i]
            && (same_program(a.earlier[i], b.earlier[i]) && same_program(a.later[i], b.later[i])))
}

// What the call of process i asked for and how far it came, and the variables that it noted.
#[tactic(auto, unfolding(crate::specs::Same::same_work))]
fn same_work(a: Card, b: Card, i: usize) -> bool
    requires { i < 8 }
    ensures { result ≡ same_work a b i }
{
    same_control(a.controls[i], b.controls[i])
        && (same_operation(a.operations[i], b.operations[i])
            && (a.exits[i] == b.exits[i]
                && (a.counts[i] == b.counts[i] && a.masks[i] == b.masks[i])))
}

// The announcement of process i, what it last read and what it simulates.
#[tactic(auto, unfolding(crate::specs::Same::same_reads))]
fn same_reads(a: Card, b: Card, i: usize) -> bool
    requires { i < 8 }
    ensures { result ≡ same_reads a b i }
{
    same_announcement(a.announcements[i], b.announcements[i])
        && (same_gate(a.gates_read[i], b.gates_read[i])
            && (same_announcement(a.announcements_read[i], b.announcements_read[i])
                && (same_simulation(a.simulations[i], b.simulations[i])
                    && same_dictionary(a.dictionaries[i], b.dictionaries[i]))))
}

#[tactic(auto, unfolding(crate::specs::Same::same_at))]
fn same_at(a: Card, b: Card, i: usize) -> bool
    requires { i < 8 }
    ensures { result ≡ same_at a b i }
{
    same_texts(a, b, i) && (same_work(a, b, i) && same_reads(a, b, i))
}

#[tactic(auto, unfolding(crate::specs::Same::same_numbers))]
fn same_numbers(a: Card, b: Card) -> bool
    ensures { result ≡ same_numbers a b }
{
    a.process_count == b.process_count
        && (a.variable_count == b.variable_count
            && (a.program_count == b.program_count
                && (a.limit == b.limit && (a.steps == b.steps && same_gate(a.gate, b.gate)))))
}

fn same_arrays(a: Card, b: Card) -> bool
    ensures { result ≡ list_all (same_at a b) (range_with_len 0 8) }
{
    (0..8).all(|i| same_at(a, b, i))
}

#[tactic(auto, unfolding(crate::specs::Same::same_card))]
pub fn same_card(a: Card, b: Card) -> bool
    ensures { result ≡ same_card a b }
{
    same_numbers(a, b)
        && (same_starts(a.starts, b.starts)
            && (same_records(a.records, b.records) && same_arrays(a, b)))
}
