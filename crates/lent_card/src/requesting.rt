// Call, exit request (document 01: wish) and read (document 01: look).
ghost use Rattle.std.specs.Prelude.{◌≡◌};
ghost use Rattle.requests.specs.Judging.{answer_of_judged};
ghost use Rattle.lent_card.specs.Requests.{call_answer, put_call, call_block, exit_answer, exit_block, value_in, read_answer};

use crate::narrow::narrow;
use block::cells::{announcement, gate, process_count, program_count, record, variable_count};
use block::own::{control, put_control, put_count, put_exit, put_operation};
use construction::accesses::{Control, Label};
use construction::answers::{Answer, Refusal};
use construction::card::Operation;
use construction::cells::Words;
use machine::places::holder_of;
use requests::judging::{is_below, judge_call, judge_exit};
use requests::reading::value_of;

// Whether a call is taken.
fn judge_call_in(b: &[u64], process: u32, program: u32) -> Result<(), Refusal>
    ensures { answer_of_judged result ≡ call_answer b.now process program }
{
    judge_call(
        process,
        process_count(b),
        program,
        program_count(b),
        control(b, narrow(process)).place,
    )
}

// A call that is taken.
fn put_call(b: &mut [u64], i: u8, program: u8, inputs: Words)
    ensures { b.new ≡ put_call b.old i program inputs }
{
    put_control(
        b,
        i,
        Control {
            place: Label::P1,
            target: 0,
        },
    );
    put_operation(b, i, Operation { program, inputs });
    put_exit(b, i, false);
    put_count(b, i, 0);
}

// Call: refusals 5, 6 and 7.
pub fn call(b: &mut [u64], process: u32, program: u32, inputs: Words) -> Answer
    ensures { (result ≡ call_answer b.old process program) × (b.new ≡ call_block b.old process program inputs) }
{
    if let Err(refusal) = judge_call_in(b, process, program) {
        return Answer::Refused(refusal);
    }
    put_call(b, narrow(process), narrow(program), inputs);
    Answer::Taken
}

// Whether an exit request is taken.
fn judge_exit_in(b: &[u64], process: u32) -> Result<(), Refusal>
    ensures { answer_of_judged result ≡ exit_answer b.now process }
{
    judge_exit(process, process_count(b), control(b, narrow(process)).place)
}

// Exit request: refusals 5 and 8.
pub fn request_exit(b: &mut [u64], process: u32) -> Answer
    ensures { (result ≡ exit_answer b.old process) × (b.new ≡ exit_block b.old process) }
{
    if let Err(refusal) = judge_exit_in(b, process) {
        return Answer::Refused(refusal);
    }
    put_exit(b, narrow(process), true);
    Answer::Taken
}

// What a read shows of a variable.
fn value(b: &[u64], variable: u8) -> u32
    ensures { result ≡ value_in b.now variable }
{
    let gate = gate(b);
    value_of(
        gate,
        announcement(b, holder_of(gate.holder)),
        record(b, variable),
    )
}

// Read: refusal 9.
pub fn read(b: &[u64], variable: u32) -> Answer
    ensures { result ≡ read_answer b.now variable }
{
    if !is_below(variable, variable_count(b), 64) {
        return Answer::Refused(Refusal::NoPlace);
    }
    Answer::Value(value(b, narrow(variable)))
}
