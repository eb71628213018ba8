// The table of a text with exactly one line for each process.
ghost use Rattle.std.specs.Prelude.{◌≡◌, ◌≤◌};
ghost use Rattle.grammar.specs.Writing.{Put};
ghost use Rattle.commands.specs.Printing.{longest};
ghost use Rattle.calls.specs.Tables.{with_request};
ghost use Rattle.calls.specs.Texts.{own_call, requested, calls_of, line_refusal};

use crate::WrongLine;
use answers::{put_number, put_refusal};
use commands::Command;
use commands::reading::command_at;
use construction::answers::Refusal;
use executions::Request;
use grammar::writing::put_byte;

// A call, where it is one of process i.
fn own_call(process: u32, request: Request, i: u8) -> Option<Request>
    ensures { result ≡ own_call process request i }
{
    if process == i as u32 {
        return Some(request);
    }
    None
}

// The call that a command makes for process i.
fn requested(command: Command, i: u8) -> Option<Request>
    ensures { result ≡ requested command i }
{
    match command {
        Command::Call {
            process,
            program,
            inputs,
        } => own_call(process, Request { program, inputs }, i),
        Command::Exit { .. }
        | Command::Step { .. }
        | Command::Trace { .. }
        | Command::Read { .. }
        | Command::Change { .. }
        | Command::Malformed => None,
    }
}

// The call of process i put into a table; one past its end is left out.
fn put_request(words: [u32; 40], i: u8, request: Request) -> [u32; 40]
    ensures { result ≡ with_request words i request }
{
    let mut words = words;
    let inputs = request.inputs;
    let at = i as usize * 5;
    if at < 36 {
        words[at] = request.program;
        words[at + 1] = inputs.w0;
        words[at + 2] = inputs.w1;
        words[at + 3] = inputs.w2;
        words[at + 4] = inputs.w3;
    }
    words
}

// The table that a text gives for so many processes: the first line that is no call of its process is wrong, one that is missing or left over too.
pub fn read_calls(text: &[u8], count: u8) -> Result<[u32; 40], WrongLine>
    ensures { result ≡ calls_of text.now count }
{
    let mut words = [0u32; 40];
    let mut at: usize = 0;
    for i in 0..count {
        let parsed = command_at(text, at);
        let Some(request) = requested(parsed.command, i) else {
            return Err(WrongLine {
                line: i as u64 + 1,
                words,
            });
        };
        // Not straight into `words`, which is lent here: tried, and the proof did not close.
        let more = put_request(words, i, request);
        words = more;
        at = parsed.next;
    }
    if at < text.len() {
        return Err(WrongLine {
            line: count as u64 + 1,
            words,
        });
    }
    Ok(words)
}

// What is printed of a line that is wrong.
pub fn put_line_refusal(buffer: &mut [u8], line: u64) -> usize
    ensures { Put buffer.old 0 (line_refusal line) result buffer.new × (result ≤ longest) }
{
    let i = put_number(buffer, 0, b"line,", line);
    let j = put_refusal(buffer, i, Refusal::Malformed);
    put_byte(buffer, j, b'\n')
}
