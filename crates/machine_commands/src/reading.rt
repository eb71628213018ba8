// The request at a place of a calls text.
ghost use Rattle.std.specs.Prelude.{◌≡◌};
ghost use Rattle.machine_commands.specs.Requests.{directed, request};

use crate::{Line, Request};
use commands::Parsed;
use commands::reading::{fields_at, malformed_at, verb_at, word_at};
use grammar::reading::has_word;

// A command to a machine.
fn directed_to(machine: u32, plain: Parsed) -> Line
    ensures { result ≡ directed machine plain }
{
    Line {
        request: Request::To {
            machine,
            command: plain.command,
        },
        lines: plain.lines,
        next: plain.next,
    }
}

// The request at a place of the text.
#[tactic(auto, unfolding(crate::specs::Requests::request))]
pub fn request_at(calls: &[u8], at: usize) -> Line
    ensures { result ≡ request calls.now at }
{
    if has_word(calls, at, b"turn\n") {
        return Line {
            request: Request::Turn,
            lines: 1,
            next: at + 5,
        };
    }
    let verb = verb_at(calls, at);
    match word_at(calls, b',', verb.next) {
        Some(machine) => directed_to(
            machine.value,
            fields_at(calls, verb.value, at, machine.next),
        ),
        None => directed_to(0, malformed_at(calls, at)),
    }
}
