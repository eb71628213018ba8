// The bench program (document 01, "The bench program"): reads `card.txt` and `calls.txt` in the folder where it is run and prints the
// session. The printed text is that of the crate session; only reading the files and writing the bytes is left to do here.
#![tactic(auto)]

use host::{fail, read_file};
use session::State;
use session::running::{put_lines, start};
use std::io;

// Prints the lines of a session, as many whole ones at a time as a large buffer takes, until no command is left or some cannot be
// written, which the error tells.
fn print_lines(rt: &impl Print, first: State, calls: &[u8]) -> io::Result<()> {
    let mut state = first;
    // The next place is known when lines are read, so no range gives it.
    while state.at < calls.len() {
        let mut buffer = host::large_buffer();
        let printed = put_lines(state, calls, &mut buffer);
        rt.write_all(&buffer[..printed.length])?;
        state = printed.state;
    }
    Ok(())
}

// Prints a session: a refusal, or its lines. An error where not all of it was written.
fn print_session(rt: &impl Print, card: &[u8], calls: &[u8]) -> io::Result<()> {
    let mut buffer = host::buffer();
    let started = start(card, calls, &mut buffer);
    rt.write_all(&buffer[..started.length])?;
    print_lines(rt, started.state, calls)
}

// At most one byte more than its limit is read of each file. A program has no exit status, so what cannot be written is told on standard error.
fn main(rt: HostRuntime) {
    let mut card = [0u8; 16385];
    let mut calls = [0u8; 65537];
    let card_length = read_file(&rt, b"card.txt", &mut card);
    let calls_length = read_file(&rt, b"calls.txt", &mut calls);
    if let Err(error) = print_session(&rt, &card[..card_length], &calls[..calls_length]) {
        fail(&rt, "bench: the session could not be written", &error);
    }
}
