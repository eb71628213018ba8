// Runs a session of the bench program on a card in lent words (document 02, order 10): reads `card.txt` and `calls.txt` in the folder where it is run and
// prints what the program bench prints. The block and the loan stand in two arrays of this program. The loan has more words than a card takes, and every
// word of it is a pattern at first.
// usage: lent_session [SEED [short]]
// With SEED other than 0 the loan is altered before every command: the words that the card takes become the next numbers of Marsaglia's xorshift from SEED.
// With a second argument every step is asked for with a loan too short first, which is to be refused and to change nothing.
// At the end standard error tells whether the words past those that the card takes kept their pattern and every step with a loan too short was refused.
// What is computed, compared and answered equals its definition in specs/; no contract can say what is read and written.
#![tactic(auto)]

mod altering; // altering.rt: other words in the loan, and the words past them
mod answering; // answering.rt: the answer of the card to a command
mod printing; // printing.rt: the printed lines

use crate::altering::{PATTERN, alter, is_kept};
use crate::answering::refuses_short;
use crate::printing::{put_command, put_start};
use commands::reading::command_at;
use grammar::reading::number_at;
use host::{argument, argument_count, fail, read_file};
use loan::dictionaries::loan_words;
use std::rt::Env;

// What was put into a buffer: its length, and where the next command stands. After a refusal that is the end of the calls, and no Option, since a session is
// run from there too: what is told at its end is told after a refusal as well.
#[derive(Clone, Copy)]
struct Begun {
    length: usize,
    at: usize,
}

// The number of an argument, 0 where it is none.
// No Option of it: what may not change (the program goes on with 0 where an argument is none).
fn number_of(rt: &impl Env, place: usize) -> u64 {
    let mut text = host::buffer();
    argument(rt, place, &mut text);
    match number_at(&text, 0) {
        Some(found) => found.value,
        None => 0,
    }
}

// With the arguments as they were taken, so that a run without them is not taken for one with them.
fn tell(rt: &impl Eprint, kept: bool, seed: u64, short: bool) {
    let loan = if kept { "kept" } else { "not kept" };
    let first = if short { ", short first" } else { "" };
    let _ = eprintln!(rt; "the loan is {loan}, seed {seed}{first}");
}

// Runs the commands from a place on, and prints a line for each.
fn run(
    rt: &(impl Print + Eprint + Alloc),
    calls: &[u8],
    start: usize,
    b: &mut [u64],
    l: &mut [u64],
    seed: u64,
    short: bool,
) {
    let mut at = start;
    let mut line: u64 = 1;
    let mut drawn = seed;
    let mut kept = true;
    // The next place is known when a command is read, so no range gives it.
    while at < calls.len() {
        let parsed = command_at(calls, at);
        drawn = alter(l, loan_words(b), drawn);
        kept = refuses_short(short, b, parsed.command) && kept;
        let mut buffer = host::buffer();
        let length = put_command(calls, parsed.command, line, b, l, &mut buffer);
        kept = kept && is_kept(l, loan_words(b));
        if let Err(error) = rt.write_all(&buffer[..length]) {
            fail(rt, "lent_session: the session could not be written", &error);
            return;
        }
        at = parsed.next;
        line = session::running::next_line(line, parsed.lines);
    }
    tell(rt, kept, seed, short);
}

// Runs a session: a refusal, or its lines.
fn run_session(
    rt: &(impl Print + Eprint + Alloc),
    card: &[u8],
    calls: &[u8],
    seed: u64,
    short: bool,
) {
    let mut b = [0u64; 1456];
    let mut l = [PATTERN; 800];
    let mut buffer = host::buffer();
    let started = put_start(card, calls, &mut b, &mut buffer);
    if let Err(error) = rt.write_all(&buffer[..started.length]) {
        fail(rt, "lent_session: the session could not be written", &error);
        return;
    }
    run(rt, calls, started.at, &mut b, &mut l, seed, short);
}

// At most one byte more than its limit is read of each file.
fn main(rt: HostRuntime) {
    let mut card = [0u8; 16385];
    let mut calls = [0u8; 65537];
    let card_length = read_file(&rt, b"card.txt", &mut card);
    let calls_length = read_file(&rt, b"calls.txt", &mut calls);
    let short = 2 < argument_count(&rt);
    run_session(
        &rt,
        &card[..card_length],
        &calls[..calls_length],
        number_of(&rt, 1),
        short,
    );
}
