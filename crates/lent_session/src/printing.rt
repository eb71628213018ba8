// The printed lines.
ghost use Rattle.commands.specs.Commands.{Inside};
ghost use Rattle.lent_session.specs.Printing.{Starts, Prints};

use crate::Begun;
use crate::answering::execute;
use commands::Command;
use commands::printing::{put_calls_refusal, put_card_refusal, put_line};

// The most bytes of calls that are read.
const LIMIT: usize = 65_536;

// Opens the card: a refusal is put into the buffer, and no command is left after it.
pub(crate) fn put_start(card: &[u8], calls: &[u8], b: &mut [u64], buffer: &mut [u8]) -> Begun
    ensures { Starts card.now calls.now b.old buffer.old result b.new buffer.new }
{
    let verdict = lent_text::open(card, b);
    if let Err(refused) = verdict {
        return Begun {
            length: put_card_refusal(buffer, refused),
            at: calls.len(),
        };
    }
    if LIMIT < calls.len() {
        return Begun {
            length: put_calls_refusal(buffer),
            at: calls.len(),
        };
    }
    Begun { length: 0, at: 0 }
}

// The answer to a command, and its line put into the buffer: how long that is.
pub(crate) fn put_command(
    calls: &[u8],
    command: Command,
    line: u64,
    b: &mut [u64],
    l: &mut [u64],
    buffer: &mut [u8],
) -> usize
    requires { Inside calls.now command }
    ensures { Prints calls.now command line b.old l.old buffer.old result b.new l.new buffer.new }
{
    let told = execute(calls, b, l, command);
    put_line(buffer, 0, line, command, told.report, told.answer)
}
