// The run over a schedule. The loan is tested once: what a step needs of it is kept by every step and every call.
ghost use Rattle.std.specs.Prelude.{◌≡◌, ◌≤◌, length};
ghost use Rattle.loan.specs.Loans.{loan_words};
ghost use Rattle.lent_sweep.specs.Sweeps.{is_accepted, is_again, again, Below, Turns, Sweeps};

use crate::Counts;
use crate::counting::{is_return, none, with_answer};
use block::cells::{limit, process_count, steps};
use block::own::control;
use calls::{has_request, request_in};
use construction::answers::Answer;
use lent_card::requesting::call;
use lent_steps::stepping::{advance, answer_in};
use loan::dictionaries::loan_words;
use machine::places::is_idle;
use requests::judging::is_below;

// Whether a step of process i is accepted, with a loan that is long enough: none of refusals 5, 8 and 10.
fn is_accepted(b: &[u64], i: u8) -> bool
    ensures { result ≡ is_accepted b.now i }
{
    if !is_below(i as u32, process_count(b), 8) {
        return false;
    }
    if is_idle(control(b, i).place) {
        return false;
    }
    steps(b) < limit(b)
}

// Whether a process is called again after an answer: its operation has returned, and all five words of its call stand in the table.
fn is_again(calls: &[u32], i: u8, answer: Answer) -> bool
    ensures { result ≡ is_again calls.now i answer }
{
    is_return(answer) && has_request(calls, i)
}

// Where its operation has returned, a process is called again at once; one whose five words are not all in the table is left idle.
fn call_again(b: &mut [u64], calls: &[u32], i: u8, answer: Answer)
    ensures { b.new ≡ again calls.now b.old i answer }
{
    if is_again(calls, i, answer) {
        let request = request_in(calls, i);
        call(b, i as u32, request.program, request.inputs);
    }
}

// One step of the schedule.
fn turn(b: &mut [u64], l: &mut [u64], calls: &[u32], i: u8, counts: Counts) -> Counts
    requires { (loan_words b.old ≤ length l.old) × Below counts }
    ensures { Turns calls.now b.old l.old counts i result b.new l.new }
{
    if !is_accepted(b, i) {
        return counts;
    }
    advance(b, l, i);
    let answer = answer_in(b, i);
    call_again(b, calls, i, answer);
    with_answer(counts, answer)
}

// The steps of a schedule, a process each, with a table of calls of five words for each process; steps that are refused alter and count nothing. With a loan
// too short all are.
pub fn run(b: &mut [u64], l: &mut [u64], calls: &[u32], schedule: &[u8]) -> Counts
    ensures { Sweeps calls.now b.old l.old schedule.now result b.new l.new }
{
    let mut counts = none();
    if l.len() < loan_words(b) {
        return counts;
    }
    for &i in schedule {
        counts = turn(b, l, calls, i, counts);
    }
    counts
}
