// The program `readings` (document 02, order 7): reads a dump and prints the values after a step, or after each of its times. The dump is judged and read
// by the crate dump_reader, which forms the lines too; reading the file and the arguments and writing bytes is left to do here.
#![tactic(auto)]

ghost use Rattle.std.specs.Prelude.{◌≡◌, length};

use arguments::decimal_of;
use dump_reader::rows::{first_scan, put_row, put_rows};
use grammar::writing::{put_byte, put_decimal, put_word};
use host::{argument, argument_count, fail, print, read_file};
use std::io;
use std::rt::Files;

// The most bytes of a dump that are read.
const LIMIT: usize = 4_194_304;

// The latest step that can be asked for.
const LAST: u64 = 1_000_000_000_000_000_000;

// `dump,refused,number,line`.
fn print_refusal(rt: &impl Print, number: u64, line: u64) -> io::Result<()> {
    let mut buffer = host::buffer();
    let i = put_word(&mut buffer, 0, b"dump,refused,");
    let j = put_decimal(&mut buffer, i, number);
    let k = put_byte(&mut buffer, j, b',');
    let l = put_decimal(&mut buffer, k, line);
    let end = put_byte(&mut buffer, l, b'\n');
    print(rt, &buffer, end)
}

// A step and the values after it.
fn print_row(rt: &impl Print, count: u8, step: u64, values: [u32; 64]) -> io::Result<()> {
    let mut buffer = host::buffer();
    let end = put_row(&mut buffer, 0, count, step, &values);
    print(rt, &buffer, end)
}

// A line for each time of a dump that was taken, as many at a time as a large buffer takes. An error where not all were written.
fn print_rows(rt: &impl Print, text: &[u8], count: u8) -> io::Result<()> {
    let mut scan = first_scan(text);
    // The next place is known when lines are read, so no range gives it.
    while scan.at < text.len() {
        let mut buffer = host::large_buffer();
        let shown = put_rows(text, count, scan, &mut buffer);
        print(rt, &buffer, shown.length)?;
        if shown.scan.at <= scan.at {
            return Err(io::Error::from(io::ErrorKind::InvalidData));
        }
        scan = shown.scan;
    }
    print_row(rt, count, scan.time, scan.values)
}

// Judges a dump, and prints what was asked for: the values after a step, or else those after each time. An error where not all of it was written.
fn print_readings(rt: &impl Print, text: &[u8], asked: Option<u64>) -> io::Result<()> {
    if LIMIT < text.len() {
        return print_refusal(rt, 1, 0);
    }
    let readings = dump_reader::read(text, asked.unwrap_or(0));
    if let Err(refused) = readings.verdict {
        return print_refusal(rt, 2, refused.line);
    }
    match asked {
        Some(step) => print_row(rt, readings.count, step, readings.values),
        None => print_rows(rt, text, readings.count),
    }
}

fn usage(rt: &impl Eprint) {
    let _ = rt.eprintln("usage: readings DUMP [STEP] (a step from 0 to 1000000000000000000)");
}

// Room for one byte more than the limit. The `ensures` gives only the length, which lending the array as a slice needs.
fn space() -> [u8; 4194305]
    ensures { 4194305 ≡ length result }
{
    [0; 4194305]
}

// One byte more than the limit is read. A program has no exit status, so what cannot be written is told on standard error.
fn run(rt: &(impl Files + Print + Eprint + Alloc), path: &[u8], asked: Option<u64>) {
    let mut text = space();
    let length = read_file(rt, path, &mut text);
    if let Err(error) = print_readings(rt, &text[..length], asked) {
        fail(rt, "readings: the values could not be written", &error);
    }
}

fn main(rt: HostRuntime) {
    let mut path = host::buffer();
    let path_length = argument(&rt, 1, &mut path);
    let mut asked = [0u8; 32];
    let length = argument(&rt, 2, &mut asked);
    match (argument_count(&rt), decimal_of(&asked[..length])) {
        (2, _) => run(&rt, &path[..path_length], None),
        (3, Some(step)) if step <= LAST => run(&rt, &path[..path_length], Some(step)),
        _ => usage(&rt),
    }
}
