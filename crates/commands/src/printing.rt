// The printed lines, put into a buffer at a place as the crate grammar does: bytes that do not fit fall away, and the place told is past
// the text all the same. The fields of answers are those of the crate answers.
ghost use Rattle.std.specs.Prelude.{◌≡◌, ◌+◌, ◌≤◌};
ghost use Rattle.grammar.specs.Writing.{Put};
ghost use Rattle.commands.specs.Printing.{is_malformed, verb_of, first_of, head_text, line_text, longest, card_refusal, calls_refusal};

use crate::Command;
use answers::reports::put_report;
use answers::{put_answer, put_number, put_refusal, put_verdict};
use construction::answers::{Answer, Refusal, Report};
use construction::texts::RefusedAt;
use grammar::writing::{put_byte, put_word};

// Whether a command is malformed.
pub fn is_malformed(command: Command) -> bool
    ensures { result ≡ is_malformed command }
{
    matches!(command, Command::Malformed)
}

// The verb of a command; of a malformed one `line`.
pub fn put_verb(buffer: &mut [u8], at: usize, command: Command) -> usize
    ensures { Put buffer.old at (verb_of command) result buffer.new × (result ≤ at + 6) }
{
    match command {
        Command::Call { .. } => put_word(buffer, at, b"call"),
        Command::Exit { .. } => put_word(buffer, at, b"wish"),
        Command::Step { .. } => put_word(buffer, at, b"step"),
        Command::Trace { .. } => put_word(buffer, at, b"trace"),
        Command::Read { .. } => put_word(buffer, at, b"look"),
        Command::Change { .. } => put_word(buffer, at, b"change"),
        Command::Malformed => put_word(buffer, at, b"line"),
    }
}

// The first number of a command; of a malformed one its line.
#[tactic(auto, unfolding(crate::specs::Printing::first_of, crate::specs::CommandFields::command_fields))]
pub fn first_of(line: u64, command: Command) -> u64
    ensures { result ≡ first_of line command }
{
    match command {
        Command::Call { process, .. }
        | Command::Exit { process }
        | Command::Step { process }
        | Command::Trace { process } => process as u64,
        Command::Read { variable } => variable as u64,
        Command::Change { program, .. } => program as u64,
        Command::Malformed => line,
    }
}

// The verb of a command and its first number; of a malformed one its line.
fn put_head(buffer: &mut [u8], at: usize, line: u64, command: Command) -> usize
    ensures { Put buffer.old at (head_text line command) result buffer.new × (result ≤ at + 27) }
{
    let next = put_verb(buffer, at, command);
    put_number(buffer, next, b",", first_of(line, command))
}

// The line of a command, what is told of it and its answer.
pub fn put_line(
    buffer: &mut [u8],
    at: usize,
    line: u64,
    command: Command,
    report: Report,
    answer: Answer,
) -> usize
    ensures { Put buffer.old at (line_text line command report answer) result buffer.new × (result ≤ at + longest) }
{
    let next = put_head(buffer, at, line, command);
    let told = put_report(buffer, next, report);
    let end = put_answer(buffer, told, answer);
    put_byte(buffer, end, b'\n')
}

// The line of a refused card.
pub fn put_card_refusal(buffer: &mut [u8], refused: RefusedAt) -> usize
    ensures { Put buffer.old 0 (card_refusal (Err refused)) result buffer.new × (result ≤ longest) }
{
    let next = put_word(buffer, 0, b"card");
    let end = put_verdict(buffer, next, Err(refused));
    put_byte(buffer, end, b'\n')
}

// The line of calls over the limit.
pub fn put_calls_refusal(buffer: &mut [u8]) -> usize
    ensures { Put buffer.old 0 calls_refusal result buffer.new × (result ≤ longest) }
{
    let next = put_word(buffer, 0, b"calls");
    let end = put_refusal(buffer, next, Refusal::TooLong);
    put_byte(buffer, end, b'\n')
}
