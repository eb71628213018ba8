// The fourteen instructions of documents 01 ('The card text') and 02 (order 9) as code: operands, arithmetic, and what an instruction does to a
// running program. It rests on the crate construction, which declares the types and defines each result.
#![tactic(auto)]

pub mod weights; // weights.rt: how many records programs can touch

ghost use Rattle.std.specs.Prelude.{◌≡◌, cond, suc, ◌-◌, min};
ghost use Rattle.construction.specs.Instructions.{word, with_word, sum, difference, load, store, is_cell, free, effect_of, shortened};
ghost use Rattle.programs.specs.Cells.{is_astray};
ghost use Rattle.programs.specs.Fetching.{instruction_at};
ghost use Rattle.construction.specs.Instructions.{forward, with_register, with_output, skipped, faulted};

use construction::cells::{Words, Yield};
use construction::programs::{Effect, Instruction, Line};
use construction::simulations::Simulation;

// Word `place` of four.
#[tactic(auto, unfolding(construction::specs::Instructions::word))]
pub fn word(words: Words, place: u8) -> u32
    ensures { result ≡ word words place }
{
    match place {
        0 => words.w0,
        1 => words.w1,
        2 => words.w2,
        _ => words.w3,
    }
}

fn choose(test: bool, new: u32, old: u32) -> u32
    ensures { result ≡ cond test new old }
{
    if test { new } else { old }
}

// Four words with a value at a place. No branch yields a struct, for speed.
pub fn with_word(words: Words, place: u8, value: u32) -> Words
    ensures { result ≡ with_word words place value }
{
    Words {
        w0: choose(place == 0, value, words.w0),
        w1: choose(place == 1, value, words.w1),
        w2: choose(place == 2, value, words.w2),
        w3: choose(2 < place, value, words.w3),
    }
}

// Code 7: a sum past the end of a word is that end.
#[tactic(auto, unfolding(construction::specs::Instructions::sum))]
pub fn sum(x: u32, y: u32) -> u32
    ensures { result ≡ sum x y }
{
    let room = 4_294_967_295 - x;
    if y < room { x + y } else { 4_294_967_295 }
}

// Code 8: a difference below 0 is 0.
#[tactic(auto, unfolding(construction::specs::Instructions::difference))]
pub fn difference(x: u32, y: u32) -> u32
    ensures { result ≡ difference x y }
{
    if y < x { x - y } else { 0 }
}

// A load of a variable, which is a fault where the variable is not below n.
#[tactic(auto, unfolding(construction::specs::Instructions::load))]
pub fn load(n: u8, register: u8, variable: u32) -> Effect
    ensures { result ≡ load n register variable }
{
    if variable < n as u32 {
        return Effect::Load {
            register,
            variable: variable as u8,
        };
    }
    Effect::Fault
}

// A store to a variable, which is a fault where the variable is not below n.
#[tactic(auto, unfolding(construction::specs::Instructions::store))]
pub fn store(n: u8, variable: u32, value: u32) -> Effect
    ensures { result ≡ store n variable value }
{
    if n as u32 <= variable {
        return Effect::Fault;
    }
    Effect::Store {
        variable: variable as u8,
        value,
    }
}

// Whether a number is that of a cell.
pub fn is_cell(n: u8, number: u32) -> bool
    ensures { result ≡ is_cell n number }
{
    number != 0 && number < n as u32
}

// Code 13: whether variable 0 holds a number that is neither 0 nor that of a cell.
pub fn is_astray(n: u8, number: u32) -> bool
    ensures { result ≡ is_astray n number }
{
    number != 0 && n as u32 <= number
}

// Code 14: the cell of a number given back, a fault where there is no such cell.
#[tactic(auto, unfolding(construction::specs::Instructions::free))]
pub fn free(n: u8, number: u32) -> Effect
    ensures { result ≡ free n number }
{
    if is_cell(n, number) {
        return Effect::Free { cell: number as u8 };
    }
    Effect::Fault
}

// The lesser of two counts.
fn least(x: u8, y: u8) -> u8
    ensures { result ≡ min x y }
{
    if x < y { x } else { y }
}

// A skip by a test, of at most the instructions that are left.
fn skip_if(test: bool, count: u8, remaining: u8) -> Effect
    ensures { result ≡ Effect.Skip (cond test (min count remaining) 0) }
{
    Effect::Skip {
        count: if test { least(count, remaining) } else { 0 },
    }
}

fn set(register: u8, value: u32) -> Effect
    ensures { result ≡ Effect.Set register value }
{
    Effect::Set { register, value }
}

// What an instruction does on a card of n variables, with the registers r and so many instructions behind it.
#[tactic(auto, unfolding(construction::specs::Instructions::effect_of))]
pub fn effect_of(n: u8, inputs: Words, r: Words, remaining: u8, instruction: Instruction) -> Effect
    ensures { result ≡ effect_of n inputs r (shortened remaining instruction) }
{
    match instruction {
        Instruction::Stop => Effect::Stop,
        Instruction::Input { register, input } => set(register, word(inputs, input)),
        Instruction::Constant { register, constant } => set(register, constant),
        Instruction::Load { register, variable } => load(n, register, variable as u32),
        Instruction::Store { variable, register } => store(n, variable as u32, word(r, register)),
        Instruction::LoadAt { register, address } => load(n, register, word(r, address)),
        Instruction::StoreAt { address, register } => store(n, word(r, address), word(r, register)),
        Instruction::Add { register, operand } => set(
            register,
            sum(word(r, register), word(r, operand)),
        ),
        Instruction::Subtract { register, operand } => set(
            register,
            difference(word(r, register), word(r, operand)),
        ),
        Instruction::SkipEqual { left, right, skip } => skip_if(
            word(r, left) == word(r, right),
            skip,
            remaining,
        ),
        Instruction::SkipLess { left, right, skip } => skip_if(
            word(r, left) < word(r, right),
            skip,
            remaining,
        ),
        Instruction::Output { output, register } => Effect::Output {
            output,
            value: word(r, register),
        },
        Instruction::Allocate { register } => Effect::Allocate { register },
        Instruction::Free { register } => free(n, word(r, register)),
    }
}

// The place after the next one and `count` more, at most the end.
#[tactic(auto, unfolding(construction::specs::Instructions::forward))]
pub fn forward(counter: u8, count: u8) -> u8
    ensures { result ≡ forward counter count }
{
    if counter < 31 && count < 31 - counter {
        counter + count + 1
    } else {
        32
    }
}

// The state after a register took a value.
#[tactic(auto, unfolding(construction::specs::Instructions::with_register))]
pub fn with_register(simulation: Simulation, register: u8, value: u32) -> Simulation
    ensures { result ≡ with_register simulation register value }
{
    Simulation {
        counter: forward(simulation.counter, 0),
        registers: with_word(simulation.registers, register, value),
        ..simulation
    }
}

// The state after an output took a value.
#[tactic(auto, unfolding(construction::specs::Instructions::with_output))]
pub fn with_output(simulation: Simulation, output: u8, value: u32) -> Simulation
    ensures { result ≡ with_output simulation output value }
{
    Simulation {
        counter: forward(simulation.counter, 0),
        yields: Yield {
            outputs: with_word(simulation.yields.outputs, output, value),
            ..simulation.yields
        },
        ..simulation
    }
}

// The state after `count` instructions were skipped.
#[tactic(auto, unfolding(construction::specs::Instructions::skipped))]
pub fn skipped(simulation: Simulation, count: u8) -> Simulation
    ensures { result ≡ skipped simulation count }
{
    Simulation {
        counter: forward(simulation.counter, count),
        ..simulation
    }
}

// The state that a fault leaves: it yields zeros and the mark.
#[tactic(auto, unfolding(construction::specs::Instructions::faulted))]
pub fn faulted(simulation: Simulation) -> Simulation
    ensures { result ≡ faulted simulation }
{
    Simulation {
        yields: Yield {
            outputs: Words {
                w0: 0,
                w1: 0,
                w2: 0,
                w3: 0,
            },
            fault: true,
        },
        ..simulation
    }
}

// How many instructions of a program of this length stand behind the one at a place.
pub fn remaining_after(length: u8, counter: u8) -> u8
    ensures { result ≡ length - suc counter }
{
    if counter < length {
        length - counter - 1
    } else {
        0
    }
}

// The instruction at a place, given the line that stands there in a program of this length.
pub fn instruction_at(length: u8, counter: u8, line: Line) -> Instruction
    ensures { result ≡ instruction_at length counter line }
{
    if counter < length && counter < 32 {
        line.instruction
    } else {
        Instruction::Stop
    }
}
