// The answer of the card to a command.
ghost use Rattle.std.specs.Prelude.{◌≡◌};
ghost use Rattle.construction.specs.Tracing.{no_report};
ghost use Rattle.commands.specs.Commands.{Inside};
ghost use Rattle.lent_session.specs.Answering.{Executes, lent_executed, asked_for, asked_short, short_refused, short_block};

use answers::kinds::is_refused;
use commands::Command;
use construction::answers::{Answer, Refusal};
use lent_card::changing::change;
use lent_card::requesting::{call, read, request_exit};
use lent_steps::stepping::step;
use lent_steps::tracing::{Told, trace};
use loan::dictionaries::loan_words;

// An answer with nothing told.
fn untold(answer: Answer) -> Told
    ensures { result ≡ record { answer = answer; report = no_report } }
{
    Told {
        answer,
        report: reports::no_report(),
    }
}

// The answer to a command, and what is told of a traced step.
pub(crate) fn execute(calls: &[u8], b: &mut [u64], l: &mut [u64], command: Command) -> Told
    requires { Inside calls.now command }
    ensures { Executes (lent_executed calls.now b.old l.old command) result b.new l.new }
{
    match command {
        Command::Call {
            process,
            program,
            inputs,
        } => untold(call(b, process, program, inputs)),
        Command::Exit { process } => untold(request_exit(b, process)),
        Command::Step { process } => untold(step(b, l, process)),
        Command::Trace { process } => trace(b, l, process),
        Command::Read { variable } => untold(read(b, variable)),
        Command::Change {
            program,
            from,
            start,
            end,
            ..
        } => untold(change(b, program, from as u64, &calls[start..end])),
        Command::Malformed => untold(Answer::Refused(Refusal::Malformed)),
    }
}

// Whether a step with a loan of two words is refused: no card whose loan takes words takes fewer than three.
fn refuses(b: &mut [u64], process: u32) -> bool
    ensures { (result ≡ short_refused b.old process) × (b.new ≡ short_block b.old process) }
{
    let mut short = [0u64; 2];
    is_refused(step(b, &mut short, process))
}

// A step is asked for in that way: whether it is refused.
fn asks(b: &mut [u64], command: Command) -> bool
    ensures { (result ≡ (asked_for b.old command).refused) × (b.new ≡ (asked_for b.old command).block) }
{
    match command {
        Command::Step { process } | Command::Trace { process } => refuses(b, process),
        Command::Call { .. }
        | Command::Exit { .. }
        | Command::Read { .. }
        | Command::Change { .. }
        | Command::Malformed => true,
    }
}

// The same where `short` says so and the loan takes words.
pub(crate) fn refuses_short(short: bool, b: &mut [u64], command: Command) -> bool
    ensures { (result ≡ (asked_short short b.old command).refused) × (b.new ≡ (asked_short short b.old command).block) }
{
    // Two tests, as the proof did not close over one of both.
    if short {
        if 2 < loan_words(b) {
            return asks(b, command);
        }
    }
    true
}
