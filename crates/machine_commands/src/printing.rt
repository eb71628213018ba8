// The printed lines, put into a buffer at a place as the crate grammar does: bytes that do not fit fall away, and the place told is past the text all the same.
ghost use Rattle.std.specs.Prelude.{◌+◌, ◌≤◌};
ghost use Rattle.grammar.specs.Writing.{Put};
ghost use Rattle.machine_commands.specs.Printing.{machine_text, to_text, head_text, line_text, longest, terms_refusal, card_refusal};

use crate::Request;
use answers::reports::put_report;
use answers::{put_answer, put_number, put_verdict};
use commands::Command;
use commands::printing::{first_of, is_malformed, put_verb};
use construction::answers::{Answer, Refusal, Report};
use construction::texts::RefusedAt;
use grammar::writing::{put_byte, put_word};

// The number of a command's machine, but of a malformed one.
fn put_machine(buffer: &mut [u8], at: usize, machine: u32, command: Command) -> usize
    ensures { Put buffer.old at (machine_text machine command) result buffer.new × (result ≤ at + 21) }
{
    if is_malformed(command) {
        return put_word(buffer, at, b"");
    }
    put_number(buffer, at, b",", machine as u64)
}

// The verb of a command, its machine and its first number; of a malformed one its line.
fn put_to(buffer: &mut [u8], at: usize, line: u64, machine: u32, command: Command) -> usize
    ensures { Put buffer.old at (to_text line machine command) result buffer.new × (result ≤ at + 48) }
{
    let i = put_verb(buffer, at, command);
    let j = put_machine(buffer, i, machine, command);
    put_number(buffer, j, b",", first_of(line, command))
}

// What the line of a request begins with.
fn put_head(buffer: &mut [u8], at: usize, line: u64, request: Request) -> usize
    ensures { Put buffer.old at (head_text line request) result buffer.new × (result ≤ at + 48) }
{
    match request {
        Request::To { machine, command } => put_to(buffer, at, line, machine, command),
        Request::Turn => put_word(buffer, at, b"turn"),
    }
}

// The line of a request, what is told of it and its answer.
pub fn put_line(
    buffer: &mut [u8],
    at: usize,
    line: u64,
    request: Request,
    report: Report,
    answer: Answer,
) -> usize
    ensures { Put buffer.old at (line_text line request report answer) result buffer.new × (result ≤ at + longest) }
{
    let next = put_head(buffer, at, line, request);
    let told = put_report(buffer, next, report);
    let end = put_answer(buffer, told, answer);
    put_byte(buffer, end, b'\n')
}

// The line of refused terms.
pub fn put_terms_refusal(buffer: &mut [u8], refused: RefusedAt) -> usize
    ensures { Put buffer.old 0 (terms_refusal (Err refused)) result buffer.new × (result ≤ longest) }
{
    let next = put_word(buffer, 0, b"machines");
    let end = put_verdict(buffer, next, Err(refused));
    put_byte(buffer, end, b'\n')
}

// The line of a refused card, that of a machine.
pub fn put_card_refusal(buffer: &mut [u8], machine: u32, refused: RefusedAt) -> usize
    ensures { Put buffer.old 0 (card_refusal machine (Err refused)) result buffer.new × (result ≤ longest) }
{
    let next = put_number(buffer, 0, b"card,", machine as u64);
    let end = put_verdict(buffer, next, Err(refused));
    put_byte(buffer, end, b'\n')
}
