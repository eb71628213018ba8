// The counts of a run, answer by answer.
ghost use Rattle.std.specs.Prelude.{◌≡◌, ◌<◌};
ghost use Rattle.lent_sweep.specs.Sweeps.{none, with_run, with_done, with_exited, with_answer, is_return, Below};

use crate::Counts;
use construction::answers::Answer;

pub fn none() -> Counts
    ensures { result ≡ none }
{
    Counts {
        accepted: 0,
        done: 0,
        faulted: 0,
        exited: 0,
        longest: 0,
    }
}

// Whether an answer tells that an operation has returned.
pub(crate) fn is_return(answer: Answer) -> bool
    ensures { result ≡ is_return answer }
{
    match answer {
        Answer::Taken => false,
        Answer::Run => false,
        Answer::Done {
            number: _,
            yields: _,
            steps: _,
        } => true,
        Answer::Exited { steps: _ } => true,
        Answer::Value(_) => false,
        Answer::Refused(_) => false,
        Answer::RefusedAt {
            refusal: _,
            line: _,
        } => false,
    }
}

// A step that ran on.
fn with_run(c: Counts) -> Counts
    requires { Below c }
    ensures { result ≡ with_run c }
{
    Counts {
        accepted: c.accepted + 1,
        ..c
    }
}

// A step whose operation was done, as a fault or not.
fn with_done(c: Counts, fault: bool, steps: u64) -> Counts
    requires { Below c }
    ensures { result ≡ with_done c fault steps }
{
    let c = Counts {
        longest: c.longest.max(steps),
        ..with_run(c)
    };
    if fault {
        return Counts {
            faulted: c.faulted + 1,
            ..c
        };
    }
    Counts {
        done: c.done + 1,
        ..c
    }
}

// A step whose operation exited.
fn with_exited(c: Counts, steps: u64) -> Counts
    requires { Below c }
    ensures { result ≡ with_exited c steps }
{
    Counts {
        exited: c.exited + 1,
        longest: c.longest.max(steps),
        ..with_run(c)
    }
}

// The counts with one answer more; none but that of an accepted step is counted.
pub(crate) fn with_answer(c: Counts, answer: Answer) -> Counts
    requires { Below c }
    ensures { result ≡ with_answer c answer }
{
    match answer {
        Answer::Run => with_run(c),
        Answer::Done { yields, steps, .. } => with_done(c, yields.fault, steps),
        Answer::Exited { steps } => with_exited(c, steps),
        Answer::Taken | Answer::Value(_) | Answer::Refused(_) | Answer::RefusedAt { .. } => c,
    }
}
