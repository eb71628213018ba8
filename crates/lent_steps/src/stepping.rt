// Step: refusals 5, 8, 10 and 11, or one shared access; and whether it would be refused.
ghost use Rattle.std.specs.Prelude.{◌≡◌, min};
ghost use Rattle.requests.specs.Judging.{answer_of_judged};
ghost use Rattle.lent_helping.specs.Steps.{access_loan};
ghost use Rattle.lent_steps.specs.Steps.{step_verdict, access_at, advanced, step_block, step_loan, answer_in, answer_to, swap_to};

use block::cells::{limit, process_count, steps};
use block::own::{control, count, exit, last};
use construction::accesses::{Access, Swap};
use construction::answers::{Answer, Refusal};
use lent_card::narrow::narrow;
use lent_helping::access::step_access;
use lent_machine::counting::put_counted;
use loan::dictionaries::loan_words;
use machine::announcement::returned;
use machine::places::{access_of, is_idle};
use requests::judging::judge_step;

// Whether a step is accepted: refusals 5, 8, 10, and then 11. The caller narrows the number of the process, so that the control is read once.
pub(crate) fn judge(b: &[u64], l: &[u64], process: u32, i: u8) -> Result<(), Refusal>
    requires { i ≡ min process 255 }
    ensures { answer_of_judged result ≡ step_verdict b.now l.now process }
{
    judge_step(
        process,
        process_count(b),
        control(b, i).place,
        steps(b),
        limit(b),
    )?;
    if l.len() < loan_words(b) {
        return Err(Refusal::ShortBuffer);
    }
    Ok(())
}

// Whether a step is accepted, with nothing written: why it would be refused, or that it would not.
pub fn verdict(b: &[u64], l: &[u64], process: u32) -> Result<(), Refusal>
    ensures { answer_of_judged result ≡ step_verdict b.now l.now process }
{
    judge(b, l, process, narrow(process))
}

// The access of process i.
pub(crate) fn access_at(b: &[u64], i: u8) -> Access
    ensures { result ≡ access_at b.now i }
{
    access_of(control(b, i).place, exit(b, i))
}

// An accepted step, and its swap.
pub fn advance(b: &mut [u64], l: &mut [u64], i: u8) -> Swap
    ensures { (b.new ≡ advanced b.old l.old i) × (l.new ≡ access_loan (access_at b.old i) b.old l.old i) × (result ≡ swap_to b.old l.old i) }
{
    let access = access_at(b, i);
    let swap = step_access(access, b, l, i);
    put_counted(b, i);
    swap
}

// The answer to a step of process i that was accepted.
pub fn answer_in(b: &[u64], i: u8) -> Answer
    ensures { result ≡ answer_in b.now i }
{
    if is_idle(control(b, i).place) {
        returned(last(b, i), count(b, i))
    } else {
        Answer::Run
    }
}

// Step.
pub fn step(b: &mut [u64], l: &mut [u64], process: u32) -> Answer
    ensures { (result ≡ answer_to b.old l.old process) × (b.new ≡ step_block b.old l.old process) × (l.new ≡ step_loan b.old l.old process) }
{
    let i = narrow(process);
    if let Err(refusal) = judge(b, l, process, i) {
        return Answer::Refused(refusal);
    }
    advance(b, l, i);
    answer_in(b, i)
}
