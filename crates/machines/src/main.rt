// Machines that share one processor (document 02, order 14): reads `machines.txt`, `card0.txt` to `card3.txt` and `calls.txt` in the folder where it is run and
// prints the session. The printed text is that of the crate machine_session; only reading the files and writing the bytes is left to do here.
#![tactic(auto)]

use host::{argument_count, fail, read_file};
use machine_session::State;
use machine_session::running::put_lines;
use machine_session::starting::start;
use std::io;
use std::rt::Files;

// Prints the lines of a session, as many at a time as a large buffer has room for, until no request is left or some cannot be written, which the error tells.
fn print_lines(
    rt: &impl Print,
    first: State,
    calls: &[u8],
    blocks: &mut [u64],
    loans: &mut [u64],
) -> io::Result<()> {
    let mut state = first;
    // The next place is known when lines are read, so no range gives it.
    while state.at < calls.len() {
        let mut buffer = host::large_buffer();
        let printed = put_lines(state, calls, blocks, loans, &mut buffer);
        rt.write_all(&buffer[..printed.length])?;
        state = printed.state;
    }
    Ok(())
}

// Prints a session: a refusal, or its lines. An error where not all of it was written. Four machines have 1456 words each for their blocks and 768 for their loans.
fn print_session(
    rt: &impl Print,
    terms: &[u8],
    card0: &[u8],
    card1: &[u8],
    card2: &[u8],
    card3: &[u8],
    calls: &[u8],
) -> io::Result<()> {
    let mut blocks = [0u64; 5824];
    let mut loans = [0u64; 3072];
    let mut buffer = host::buffer();
    let started = start(
        terms,
        card0,
        card1,
        card2,
        card3,
        calls,
        &mut blocks,
        &mut buffer,
    );
    rt.write_all(&buffer[..started.length])?;
    print_lines(rt, started.state, calls, &mut blocks, &mut loans)
}

// Runs a session. At most one byte more than its limit is read of each file. A program has no exit status, so what cannot be written is told on standard error.
fn run(rt: &(impl Files + Print + Eprint + Alloc)) {
    let mut terms = [0u8; 16385];
    let mut card0 = [0u8; 16385];
    let mut card1 = [0u8; 16385];
    let mut card2 = [0u8; 16385];
    let mut card3 = [0u8; 16385];
    let mut calls = [0u8; 65537];
    let terms_length = read_file(rt, b"machines.txt", &mut terms);
    let length0 = read_file(rt, b"card0.txt", &mut card0);
    let length1 = read_file(rt, b"card1.txt", &mut card1);
    let length2 = read_file(rt, b"card2.txt", &mut card2);
    let length3 = read_file(rt, b"card3.txt", &mut card3);
    let calls_length = read_file(rt, b"calls.txt", &mut calls);
    let printed = print_session(
        rt,
        &terms[..terms_length],
        &card0[..length0],
        &card1[..length1],
        &card2[..length2],
        &card3[..length3],
        &calls[..calls_length],
    );
    if let Err(error) = printed {
        fail(rt, "machines: the session could not be written", &error);
    }
}

// The arguments are judged before any file: there is none.
fn main(rt: HostRuntime) {
    if argument_count(&rt) > 1 {
        let _ = rt.eprintln(
            "usage: machines (reads machines.txt, card0.txt to card3.txt and calls.txt in the current folder)",
        );
        return;
    }
    run(&rt);
}
