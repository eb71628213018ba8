// The lines of a session, as many at a time as a buffer has room for. A request is made in the lent words, so that the room for its line is there before it.
ghost use Rattle.machine_session.specs.Session.{Prints};

use crate::answering::execute;
use crate::{Printed, State};
use machine_commands::printing::put_line;
use machine_commands::reading::request_at;
use session::running::next_line;

// The most bytes of a line.
const LONGEST: usize = 290;

// Prints the lines of the session from a state on, while the buffer has room for the longest.
pub fn put_lines(
    state: State,
    calls: &[u8],
    blocks: &mut [u64],
    loans: &mut [u64],
    buffer: &mut [u8],
) -> Printed
    ensures { Prints calls.now state blocks.old loans.old buffer.old result blocks.new loans.new buffer.new }
{
    let mut state = state;
    let mut length: usize = 0;
    // The next place is known when a request is read, so no range gives it.
    while state.at < calls.len() {
        if buffer.len() - length < LONGEST {
            return Printed { state, length };
        }
        let parsed = request_at(calls, state.at);
        let told = execute(calls, state.allowance, blocks, loans, parsed.request);
        length = put_line(
            buffer,
            length,
            state.line,
            parsed.request,
            told.report,
            told.answer,
        );
        state = State {
            allowance: told.allowance,
            at: parsed.next,
            line: next_line(state.line, parsed.lines),
        };
    }
    Printed { state, length }
}
