// The session: where it starts, and its lines, as many whole ones at a time as a buffer takes.
ghost use Rattle.std.specs.Prelude.{◌≡◌};
ghost use Rattle.grammar.specs.Writing.{place_after};
ghost use Rattle.construction.specs.Tracing.{no_report};
ghost use Rattle.commands.specs.Commands.{Inside};
ghost use Rattle.session.specs.Session.{execute as executed, advanced as advancedAs, Prints, Starts};

use crate::{Advanced, Printed, State};
use commands::Command;
use commands::printing::{put_calls_refusal, put_card_refusal, put_line};
use commands::reading::command_at;
use construction::answers::{Answer, Answered, Refusal, Traced};
use construction::card::Card;

// The most bytes of calls that are read.
const LIMIT: usize = 65_536;

const LARGEST: u64 = 18_446_744_073_709_551_615;

// An answer of the card with nothing told.
fn untraced(answered: Answered) -> Traced
    ensures { result ≡ record { card = answered.card; answer = answered.answer; report = no_report } }
{
    let card = answered.card;
    let answer = answered.answer;
    Traced {
        card,
        answer,
        report: reports::no_report(),
    }
}

// The answer of the card to a command, and what it tells of a traced step.
pub(crate) fn execute(calls: &[u8], card: Card, command: Command) -> Traced
    requires { Inside calls.now command }
    ensures { result ≡ executed calls.now card command }
{
    match command {
        Command::Call {
            process,
            program,
            inputs,
        } => untraced(card::call(card, process, program, inputs)),
        Command::Exit { process } => untraced(card::request_exit(card, process)),
        Command::Step { process } => untraced(card::step(card, process)),
        Command::Trace { process } => tracing::trace(card, process),
        Command::Read { variable } => untraced(card::read(card, variable)),
        Command::Change {
            program,
            from,
            count: _,
            start,
            end,
        } => untraced(changing::change(card, program, from as u64, &calls[start..end])),
        Command::Malformed => untraced(Answered {
            card,
            answer: Answer::Refused(Refusal::Malformed),
        }),
    }
}

// The number of the line so many lines on.
pub fn next_line(line: u64, lines: u64) -> u64
    ensures { result ≡ place_after line lines }
{
    if LARGEST - line < lines {
        LARGEST
    } else {
        line + lines
    }
}

// Carries out the command at the session's place, and prints nothing.
pub fn advance(state: State, calls: &[u8]) -> Advanced
    ensures { result ≡ advancedAs calls.now state }
{
    let parsed = command_at(calls, state.at);
    let command = parsed.command;
    let card = state.card;
    let executed = execute(calls, card, command);
    let answer = executed.answer;
    let after = executed.card;
    let line = next_line(state.line, parsed.lines);
    let next = State {
        card: after,
        at: parsed.next,
        line,
    };
    Advanced {
        state: next,
        command,
        answer,
    }
}

// Prints the lines of the session from a state on, as many whole ones as fit into the buffer.
pub fn put_lines(state: State, calls: &[u8], buffer: &mut [u8]) -> Printed
    ensures { Prints calls.now state buffer.old result buffer.new }
{
    let mut state = state;
    let mut length: usize = 0;
    // The next place is known when a command is read, so no range gives it.
    while state.at < calls.len() {
        let parsed = command_at(calls, state.at);
        let command = parsed.command;
        let card = state.card;
        let executed = execute(calls, card, command);
        let answer = executed.answer;
        let report = executed.report;
        let end = put_line(buffer, length, state.line, command, report, answer);
        if buffer.len() < end {
            return Printed { state, length };
        }
        let after = executed.card;
        let line = next_line(state.line, parsed.lines);
        state = State {
            card: after,
            at: parsed.next,
            line,
        };
        length = end;
    }
    Printed { state, length }
}

// A session before its first command, after what is printed before that.
fn begun(card: Card, at: usize, length: usize) -> Printed
    ensures { result ≡ record { state = record { card = card; at = at; line = 1 }; length = length } }
{
    let state = State { card, at, line: 1 };
    Printed { state, length }
}

// Starts a session: a refusal is printed into the buffer, and no command is left after it.
pub fn start(card: &[u8], calls: &[u8], buffer: &mut [u8]) -> Printed
    ensures { Starts card.now calls.now buffer.old result buffer.new }
{
    let opened = reader::open(card);
    let first = opened.card;
    if let Err(refused) = opened.verdict {
        let length = put_card_refusal(buffer, refused);
        return begun(first, calls.len(), length);
    }
    if LIMIT < calls.len() {
        let length = put_calls_refusal(buffer);
        return begun(first, calls.len(), length);
    }
    begun(first, 0, 0)
}
