// The answer to a request.
ghost use Rattle.std.specs.Prelude.{◌≡◌};
ghost use Rattle.commands.specs.Commands.{Inside};
ghost use Rattle.machine_commands.specs.Requests.{InsideOf};
ghost use Rattle.machine_session.specs.Answering.{untold, Executes, performed, executed};

use allowance::{Allowance, turned};
use commands::Command;
use construction::answers::{Answer, Refusal};
use machine_commands::Request;
use shared_processor::requesting::{call, change, read, request_exit};
use shared_processor::stepping::{Stepped, Traced, step, trace};

// The words of a loan.
const STRIDE: u32 = 768;

// An answer with nothing told, and the allowance after it.
fn told(allowance: Allowance, answer: Answer) -> Traced
    ensures { result ≡ untold allowance answer }
{
    Traced {
        allowance,
        answer,
        report: reports::no_report(),
    }
}

fn told_step(stepped: Stepped) -> Traced
    ensures { result ≡ untold stepped.allowance stepped.answer }
{
    let allowance = stepped.allowance;
    let answer = stepped.answer;
    told(allowance, answer)
}

// The answer of a machine to a command.
fn perform(
    calls: &[u8],
    a: Allowance,
    blocks: &mut [u64],
    loans: &mut [u64],
    machine: u32,
    command: Command,
) -> Traced
    requires { Inside calls.now command }
    ensures { Executes (performed calls.now a blocks.old loans.old machine command) result blocks.new loans.new }
{
    match command {
        Command::Call {
            process,
            program,
            inputs,
        } => told(a, call(a, blocks, machine, process, program, inputs)),
        Command::Exit { process } => told(a, request_exit(a, blocks, machine, process)),
        Command::Step { process } => told_step(step(a, STRIDE, blocks, loans, machine, process)),
        Command::Trace { process } => trace(a, STRIDE, blocks, loans, machine, process),
        Command::Read { variable } => told(a, read(a, blocks, machine, variable)),
        Command::Change {
            program,
            from,
            count: _,
            start,
            end,
        } => told(
            a,
            change(a, blocks, machine, program, from as u64, &calls[start..end]),
        ),
        Command::Malformed => told(a, Answer::Refused(Refusal::Malformed)),
    }
}

// The answer to a request, what is told of a traced step, and the allowance after it.
pub(crate) fn execute(
    calls: &[u8],
    a: Allowance,
    blocks: &mut [u64],
    loans: &mut [u64],
    request: Request,
) -> Traced
    requires { InsideOf calls.now request }
    ensures { Executes (executed calls.now a blocks.old loans.old request) result blocks.new loans.new }
{
    match request {
        Request::To { machine, command } => perform(calls, a, blocks, loans, machine, command),
        Request::Turn => told(turned(a), Answer::Taken),
    }
}
