// What every program asks of the system that it runs on: the bytes of a file or of standard input, its arguments, bytes printed or told, and the seconds of its
// clock. What the system answers is assumed as std states it. It rests on std alone. A runtime `rt` stands for the system; the bounds say what is asked of it.
#![tactic(auto)]

ghost use Rattle.std.specs.Prelude.{◌≡◌, false, ◌+◌, ◌<◌, ◌≤◌, IfOk, IsErr, leb, length};
ghost use Rattle.std.specs.Counts.{IsPrefixLen};

use std::env::FillError;
use std::fs::File;
use std::io::Read;
use std::rt::{Clock, Env, Files};
use std::{io, str};

// 4,096 zeros, for a line or the name of a file. The `ensures` gives only the length, which lending the array as a slice needs.
pub fn buffer() -> [u8; 4096]
    ensures { 4096 ≡ length result }
{
    [0; 4096]
}

// 65,536 zeros, for many lines at a time.
pub fn large_buffer() -> [u8; 65536]
    ensures { 65536 ≡ length result }
{
    [0; 65536]
}

// Reads until the buffer is full, the bytes end or a read fails. How many bytes it put at the start of the buffer.
fn read_full(reader: &mut impl Read, buffer: &mut [u8]) -> usize
    ensures { IsPrefixLen result buffer.new }
{
    let mut done = 0;
    // How far it came is told by each read, so no range gives it.
    while done < buffer.len() {
        match reader.read(&mut buffer[done..]) {
            Ok(0) | Err(_) => break,
            Ok(count) => done += count,
        }
    }
    done
}

// Reads as much of a file as the buffer takes. A file that cannot be opened counts as empty; std opens none whose name is no text.
pub fn read_file(rt: &impl Files, path: &[u8], buffer: &mut [u8]) -> usize
    ensures { IsPrefixLen result buffer.new }
{
    let Ok(path) = str::from_utf8(path) else {
        return 0;
    };
    let Ok(mut file) = File::open(rt, path) else {
        return 0;
    };
    read_full(&mut file, buffer)
}

// Reads as much of standard input as the buffer takes.
pub fn read_input(rt: &impl Input, buffer: &mut [u8]) -> usize
    ensures { IsPrefixLen result buffer.new }
{
    read_full(&mut rt.reader(), buffer)
}

// How many arguments the program was started with, its own name among them.
pub fn argument_count(rt: &impl Env) -> usize {
    let mut text = [0u8; 1];
    for place in 0..usize::MAX {
        if let Err(FillError::NotPresent) = rt.arg(place, &mut text) {
            return place;
        }
    }
    usize::MAX
}

// Puts an argument at the start of a buffer. Its length, or 0 where it is missing or longer than the buffer, which then holds its first bytes.
pub fn argument(rt: &impl Env, place: usize, buffer: &mut [u8]) -> usize
    ensures { IsPrefixLen result buffer.new }
{
    rt.arg(place, buffer).unwrap_or(0)
}

// What tells on standard error. std's Eprint takes text alone; what is told are bytes.
pub trait ErrorOutput {
    fn tell_all(&self, bytes: &[u8]) -> io::Result<()>;
}

impl ErrorOutput for HostRuntime {
    fn tell_all(&self, bytes: &[u8]) -> io::Result<()> {
        self.stderr().write_all(bytes)
    }
}

// The bytes before a place, on standard output, what a program is asked for. An error where not all were written, which they are not where the place is past
// the buffer.
pub fn print(rt: &impl Print, buffer: &[u8], end: usize) -> io::Result<()>
    ensures { length buffer.now < end → IsErr result }
{
    if buffer.len() < end {
        return Err(io::Error::from(io::ErrorKind::InvalidInput));
    }
    rt.write_all(&buffer[..end])
}

// Bytes on standard output, in a test program: whether they were written is not told.
pub fn show(rt: &impl Print, text: &[u8]) {
    let _ = rt.write_all(text);
}

// A number as a decimal, likewise.
pub fn show_decimal(rt: &impl Print, value: u64) {
    let _ = rt.print(value);
}

// The bytes before a place, on standard error, how far a program is. Whether all were written.
pub fn tell(rt: &impl ErrorOutput, buffer: &[u8], end: usize) -> bool
    ensures { length buffer.now < end → result ≡ false }
{
    if buffer.len() < end {
        return false;
    }
    rt.tell_all(&buffer[..end]).is_ok()
}

// Tells in a line what failed, as the program names it, and the system's word for why.
pub fn fail(rt: &(impl Eprint + Alloc), what: &str, error: &io::Error) {
    let _ = match format!(in rt.alloc(); "{error}") {
        Ok(text) => eprintln!(rt; "{what}: {}", without_number(text.as_str())),
        Err(_) => eprintln!(rt; "{what}"),
    };
}

// An error's text without the number that std puts after it.
fn without_number(text: &str) -> &str {
    match text.split_once(" (os error ") {
        Some((words, _)) => words,
        None => text,
    }
}

// The seconds of the system's clock.
pub fn seconds(rt: &impl Clock) -> u64 {
    rt.since_1970().map_or(0, |now| now.as_secs())
}

// Whether it is time to tell how far a program is: two seconds or more have passed since that was last told.
pub fn is_due(time: u64, told: u64) -> bool
    ensures { result ≡ leb (told + 2) time }
{
    if time < told {
        return false;
    }
    time - told >= 2
}
