// The command at a place of a calls text: its verb, and the fields that follow, which are read from any place.
ghost use Rattle.std.specs.Prelude.{◌≡◌, drop};
ghost use Rattle.grammar.specs.Reading.{found};
ghost use Rattle.commands.specs.Commands.{line_end, lines_end, word, one_line, malformed, call_at, with_number, numbered, change_at, verb_at, parsed_at, fields_at, command};

use crate::{Command, Parsed, Verb};
use construction::cells::Words;
use grammar::Found;
use grammar::reading::{field_at, has_word};

// A field that has 32 bits, ended by a separator that belongs to it.
#[tactic(auto, unfolding(crate::specs::Commands::word))]
pub fn word_at(calls: &[u8], separator: u8, at: usize) -> Option<Found<u32>>
    ensures { result ≡ word calls.now separator at }
{
    let Found { value, next } = field_at(calls, separator, at)?;
    if value < 4_294_967_296 {
        Some(Found {
            value: value as u32,
            next,
        })
    } else {
        None
    }
}

// The place past the line at a place.
fn line_end(calls: &[u8], at: usize) -> usize
    ensures { result ≡ line_end at (drop at calls.now) }
{
    for i in at..calls.len() {
        if calls[i] == b'\n' {
            return i + 1;
        }
    }
    at.max(calls.len())
}

// The place past so many lines. A count that is too large ends with the text.
fn lines_end(calls: &[u8], at: usize, count: u32) -> usize
    ensures { result ≡ lines_end count at calls.now }
{
    let mut end = at;
    for _ in 0..count {
        if calls.len() <= end {
            return end;
        }
        end = line_end(calls, end);
    }
    end
}

// A command of one line.
fn one_line(command: Command, next: usize) -> Parsed
    ensures { result ≡ one_line command next }
{
    Parsed {
        command,
        lines: 1,
        next,
    }
}

// A command that is malformed: its line is searched for its end.
pub fn malformed_at(calls: &[u8], at: usize) -> Parsed
    ensures { result ≡ malformed calls.now at }
{
    let next = line_end(calls, at);
    one_line(Command::Malformed, next)
}

// The fields of a call.
#[tactic(auto, unfolding(crate::specs::Commands::call_at))]
fn call_at(calls: &[u8], at: usize) -> Option<Parsed>
    ensures { result ≡ call_at calls.now at }
{
    let process = word_at(calls, b',', at)?;
    let program = word_at(calls, b',', process.next)?;
    let w0 = word_at(calls, b',', program.next)?;
    let w1 = word_at(calls, b',', w0.next)?;
    let w2 = word_at(calls, b',', w1.next)?;
    let w3 = word_at(calls, b'\n', w2.next)?;
    let command = Command::Call {
        process: process.value,
        program: program.value,
        inputs: Words {
            w0: w0.value,
            w1: w1.value,
            w2: w2.value,
            w3: w3.value,
        },
    };
    Some(one_line(command, w3.next))
}

// The fields of a change, and its text.
#[tactic(auto, unfolding(crate::specs::Commands::change_at))]
fn change_at(calls: &[u8], at: usize) -> Option<Parsed>
    ensures { result ≡ change_at calls.now at }
{
    let program = word_at(calls, b',', at)?;
    let from = word_at(calls, b',', program.next)?;
    let count = word_at(calls, b'\n', from.next)?;
    let end = lines_end(calls, count.next, count.value);
    Some(Parsed {
        command: Command::Change {
            program: program.value,
            from: from.value,
            count: count.value,
            start: count.next,
            end,
        },
        lines: count.value as u64 + 1,
        next: end,
    })
}

// The command of a verb that one number follows.
fn with_number(verb: Verb, value: u32) -> Command
    ensures { result ≡ with_number verb value }
{
    match verb {
        Verb::Exit => Command::Exit { process: value },
        Verb::Step => Command::Step { process: value },
        Verb::Trace => Command::Trace { process: value },
        Verb::Read => Command::Read { variable: value },
        Verb::Call | Verb::Change | Verb::Unknown => Command::Malformed,
    }
}

// The number of such a command.
fn numbered_at(calls: &[u8], verb: Verb, at: usize) -> Option<Parsed>
    ensures { result ≡ numbered calls.now verb at }
{
    let Found { value, next } = word_at(calls, b'\n', at)?;
    Some(one_line(with_number(verb, value), next))
}

// The fields of a verb's command, if they are well formed.
#[tactic(auto, unfolding(crate::specs::Commands::parsed_at))]
fn parsed_at(calls: &[u8], verb: Verb, at: usize) -> Option<Parsed>
    ensures { result ≡ parsed_at calls.now verb at }
{
    match verb {
        Verb::Call => call_at(calls, at),
        Verb::Change => change_at(calls, at),
        Verb::Exit | Verb::Step | Verb::Trace | Verb::Read => numbered_at(calls, verb, at),
        Verb::Unknown => None,
    }
}

// The fields of a verb's command from a place on, in a line that begins at `line`, which is malformed where they are.
#[tactic(auto, unfolding(crate::specs::Commands::fields_at))]
pub fn fields_at(calls: &[u8], verb: Verb, line: usize, at: usize) -> Parsed
    ensures { result ≡ fields_at calls.now verb line at }
{
    match parsed_at(calls, verb, at) {
        Some(parsed) => parsed,
        None => malformed_at(calls, line),
    }
}

// A verb that is there, and the place past it.
fn verb_found(value: Verb, next: usize) -> Found<Verb>
    ensures { result ≡ found value next }
{
    Found { value, next }
}

// The verb at a place of the text, with the comma after it: no word is looked for behind one that is there.
#[tactic(auto, unfolding(crate::specs::Commands::verb_at))]
pub fn verb_at(calls: &[u8], at: usize) -> Found<Verb>
    ensures { result ≡ verb_at calls.now at }
{
    if has_word(calls, at, b"call,") {
        return verb_found(Verb::Call, at + 5);
    }
    if has_word(calls, at, b"wish,") {
        return verb_found(Verb::Exit, at + 5);
    }
    if has_word(calls, at, b"step,") {
        return verb_found(Verb::Step, at + 5);
    }
    if has_word(calls, at, b"look,") {
        return verb_found(Verb::Read, at + 5);
    }
    if has_word(calls, at, b"trace,") {
        return verb_found(Verb::Trace, at + 6);
    }
    if has_word(calls, at, b"change,") {
        return verb_found(Verb::Change, at + 7);
    }
    verb_found(Verb::Unknown, at)
}

// The command at a place of the text.
#[tactic(auto, unfolding(crate::specs::Commands::command))]
pub fn command_at(calls: &[u8], at: usize) -> Parsed
    ensures { result ≡ command calls.now at }
{
    let verb = verb_at(calls, at);
    fields_at(calls, verb.value, at, verb.next)
}
