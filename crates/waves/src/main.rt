// The program `waves` (document 02, order 7): reads `card.txt` and `calls.txt` in the folder where it is run and prints the dump of the session. The dump is
// that of the crate dump_writer; only reading the files and writing the bytes is left to do here.
#![tactic(auto)]

use dump_writer::Course;
use dump_writer::running::{open, put_commands, put_end};
use host::{argument_count, fail, print, read_file};
use session::State;
use session::running::start;
use std::io;

// Prints what the commands of a course change, as many at a time as a large buffer takes, and the last time. An error where not all was written.
fn print_course(rt: &impl Print, first: Course, calls: &[u8]) -> io::Result<()> {
    let mut course = first;
    // The next place is known when commands are read, so no range gives it.
    while course.session.at < calls.len() {
        let mut buffer = host::large_buffer();
        let piece = put_commands(course, calls, &mut buffer);
        print(rt, &buffer, piece.at)?;
        course = piece.course;
    }
    let mut buffer = host::buffer();
    let end = put_end(course, &mut buffer);
    print(rt, &buffer, end)
}

// Prints the dump of a session from its opening. An error where not all of it was written.
fn print_dump(rt: &impl Print, state: State, calls: &[u8]) -> io::Result<()> {
    let mut buffer = host::large_buffer();
    let piece = open(state, &mut buffer);
    print(rt, &buffer, piece.at)?;
    print_course(rt, piece.course, calls)
}

// Prints a session: a refusal, or its dump. An error where not all of it was written.
fn print_session(rt: &impl Print, card: &[u8], calls: &[u8]) -> io::Result<()> {
    let mut buffer = host::buffer();
    let started = start(card, calls, &mut buffer);
    if started.length != 0 {
        return print(rt, &buffer, started.length);
    }
    print_dump(rt, started.state, calls)
}

// It takes no argument. At most one byte more than its limit is read of each file. A program has no exit status, so what cannot be written is told on
// standard error.
fn main(rt: HostRuntime) {
    if argument_count(&rt) != 1 {
        let _ = rt.eprintln("usage: waves");
        return;
    }
    let mut card = [0u8; 16385];
    let mut calls = [0u8; 65537];
    let card_length = read_file(&rt, b"card.txt", &mut card);
    let calls_length = read_file(&rt, b"calls.txt", &mut calls);
    if let Err(error) = print_session(&rt, &card[..card_length], &calls[..calls_length]) {
        fail(&rt, "waves: the dump could not be written", &error);
    }
}
