// Every short schedule (document 02, order 13): reads `card.txt` and `calls.txt` in the folder where it is run and prints the listing of length L, its
// argument. What the files say and the text of each piece are those of the crates schedule_files and listing; only reading the argument and the files,
// writing the bytes and telling how far it is are left to do here.
#![tactic(auto)]

ghost use Rattle.std.specs.Prelude.{◌≡◌, ◌≤◌, length};
ghost use Rattle.grammar.specs.Writing.{Put};
ghost use Rattle.schedules.specs.Progress.{progress_text};

use arguments::decimal_of;
use construction::card::Card;
use grammar::writing::{put_decimal, put_word};
use host::{ErrorOutput, argument, argument_count, fail, is_due, read_file, seconds, tell};
use listing::pieces::{count_pieces, put_piece};
use schedule_files::prepare;
use std::io;
use std::rt::{Clock, Env, Files};

// The steps of a piece after its first ones: it has at most 243 lines of at most 2,129 bytes, for which a buffer of 524,288 bytes has room.
const LAST: u8 = 5;

// The largest length that is read; a listing has at most 16 steps.
const LARGEST: u64 = 4_294_967_295;

// The one argument.
fn read_argument(rt: &impl Env) -> Option<u64> {
    let mut text = host::buffer();
    let length = argument(rt, 1, &mut text);
    if argument_count(rt) != 2 {
        return None;
    }
    decimal_of(&text[..length])
}

// How many of the pieces are done, and in which time, as a line in a buffer; the place past it.
fn put_progress(buffer: &mut [u8], done: u32, pieces: u32, elapsed: u64) -> usize
    ensures { Put buffer.old 0 (progress_text done pieces elapsed) result buffer.new }
{
    let i = put_word(buffer, 0, b"listed ");
    let j = put_decimal(buffer, i, done as u64);
    let k = put_word(buffer, j, b" of ");
    let l = put_decimal(buffer, k, pieces as u64);
    let m = put_word(buffer, l, b" beginnings of schedules, ");
    let n = put_decimal(buffer, m, elapsed);
    put_word(buffer, n, b" s\n")
}

// Tells how many of the pieces are done, and in which time.
fn tell_progress(rt: &impl ErrorOutput, done: u32, pieces: u32, elapsed: u64) {
    let mut text = host::buffer();
    let end = put_progress(&mut text, done, pieces, elapsed);
    tell(rt, &text, end);
}

// Tells how far it is where two seconds have passed since that was last told; when it was last told.
fn report(rt: &(impl Clock + ErrorOutput), done: u32, pieces: u32, started: u64, told: u64) -> u64 {
    let now = seconds(rt);
    if !is_due(now, told) {
        return told;
    }
    if now >= started {
        tell_progress(rt, done, pieces, now - started);
    }
    now
}

// Prints the pieces of a listing one after the other, until some cannot be written, which the error tells.
fn print_pieces(
    rt: &(impl Print + Clock + ErrorOutput),
    card: Card,
    first: u8,
    left: u8,
    buffer: &mut [u8],
) -> io::Result<()>
    requires { (left ≤ 5) × (524288 ≤ length buffer.old) }
{
    let pieces = count_pieces(card.process_count, first);
    let started = seconds(rt);
    let mut told = started;
    for j in 0..pieces {
        let length = put_piece(card, first, left, j, buffer);
        rt.write_all(&buffer[..length])?;
        told = report(rt, j + 1, pieces, started, told);
    }
    Ok(())
}

// Room for a piece.
fn piece_buffer() -> [u8; 524288]
    ensures { 524288 ≡ length result }
{
    [0; 524288]
}

// Prints a listing in pieces: the first steps, and all that go on from there for the last ones.
fn print_listing(rt: &(impl Print + Clock + ErrorOutput), card: Card, length: u32) -> io::Result<()>
    requires { length ≤ 16 }
{
    let mut buffer = piece_buffer();
    if length <= LAST as u32 {
        return print_pieces(rt, card, 0, length as u8, &mut buffer);
    }
    print_pieces(rt, card, length as u8 - LAST, LAST, &mut buffer)
}

// Prints what the files come to: one line, or the listing. An error where not all of it was written.
fn print_files(
    rt: &(impl Print + Clock + ErrorOutput),
    card: &[u8],
    calls: &[u8],
    length: u32,
) -> io::Result<()> {
    let mut buffer = host::buffer();
    let prepared = prepare(card, calls, length, &mut buffer);
    if prepared.ready {
        return print_listing(rt, prepared.card, length);
    }
    rt.write_all(&buffer[..prepared.length])
}

fn usage(rt: &impl Eprint) {
    let _ = rt.eprintln("usage: schedules L (the number of steps, a decimal below 4294967296)");
}

// Of each file at most one byte more than its limit is read. A program has no exit status, so what cannot be written is told on standard error.
fn run(rt: &(impl Files + Print + Eprint + Alloc + Clock + ErrorOutput), length: u32) {
    let mut card = [0u8; 16385];
    let mut calls = [0u8; 65537];
    let card_length = read_file(rt, b"card.txt", &mut card);
    let calls_length = read_file(rt, b"calls.txt", &mut calls);
    if let Err(error) = print_files(rt, &card[..card_length], &calls[..calls_length], length) {
        fail(rt, "schedules: the listing could not be written", &error);
    }
}

// The argument is judged before any file.
fn main(rt: HostRuntime) {
    match read_argument(&rt) {
        Some(length) if length <= LARGEST => run(&rt, length as u32),
        _ => usage(&rt),
    }
}
