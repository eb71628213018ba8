// Step and traced step: judged by what stands in the words, then by the allowance, and made in place.
ghost use Rattle.std.specs.Prelude.{◌≡◌};
ghost use Rattle.construction.specs.History.{Entry};
ghost use Rattle.lent_runs.specs.Runs.{untraced};
ghost use Rattle.shared_processor.specs.Judging.{stepped_of, step_judged};
ghost use Rattle.shared_processor.specs.Requests.{Performs};

use crate::places::{BLOCK, block_of, part_of};
use allowance::{Allowance, allow};
use construction::answers::{Answer, Refusal, Report};
use lent_steps::stepping::verdict;

// The answer to a step, and the allowance after it.
// Not a Result: what may not change (`step_judged` of specs/Judging, and `Performs`, name the allowance after a refusal too).
#[derive(Clone, Copy)]
pub struct Stepped {
    pub allowance: Allowance,
    pub answer: Answer,
}

// The same with what is told of the step.
#[derive(Clone, Copy)]
pub struct Traced {
    pub allowance: Allowance,
    pub answer: Answer,
    pub report: Report,
}

// The allowance after a step, or why it is refused: 5 for a machine not there, what its card refuses, and 19 last.
fn judge(
    a: Allowance,
    stride: u32,
    blocks: &[u64],
    loans: &[u64],
    m: u32,
    process: u32,
) -> Result<Allowance, Refusal>
    ensures { stepped_of a result ≡ step_judged a stride blocks.now loans.now m process }
{
    let Some(block) = block_of(a, m, blocks.len()) else {
        return Err(Refusal::NoProcess);
    };
    let loan = part_of(stride, m, loans.len());
    verdict(
        &blocks[block.start..block.end],
        &loans[loan.start..loan.end],
        process,
    )?;
    allow(a, m as u64).ok_or(Refusal::NoAllowance)
}

// A step of machine m.
pub fn step(
    a: Allowance,
    stride: u32,
    blocks: &mut [u64],
    loans: &mut [u64],
    m: u32,
    process: u32,
) -> Stepped
    ensures { Performs a stride blocks.old loans.old m (Entry.Step process) (untraced result.answer) result.allowance blocks.new loans.new }
{
    let after = match judge(a, stride, blocks, loans, m, process) {
        Ok(after) => after,
        Err(refusal) => {
            return Stepped {
                allowance: a,
                answer: Answer::Refused(refusal),
            };
        }
    };
    let block = part_of(BLOCK, m, blocks.len());
    let loan = part_of(stride, m, loans.len());
    let answer = lent_steps::stepping::step(
        &mut blocks[block.start..block.end],
        &mut loans[loan.start..loan.end],
        process,
    );
    Stepped {
        allowance: after,
        answer,
    }
}

// A traced step of machine m.
pub fn trace(
    a: Allowance,
    stride: u32,
    blocks: &mut [u64],
    loans: &mut [u64],
    m: u32,
    process: u32,
) -> Traced
    ensures { Performs a stride blocks.old loans.old m (Entry.Trace process) (record { answer = result.answer; report = result.report }) result.allowance blocks.new loans.new }
{
    let after = match judge(a, stride, blocks, loans, m, process) {
        Ok(after) => after,
        Err(refusal) => {
            return Traced {
                allowance: a,
                answer: Answer::Refused(refusal),
                report: reports::no_report(),
            };
        }
    };
    let block = part_of(BLOCK, m, blocks.len());
    let loan = part_of(stride, m, loans.len());
    let told = lent_steps::tracing::trace(
        &mut blocks[block.start..block.end],
        &mut loans[loan.start..loan.end],
        process,
    );
    Traced {
        allowance: after,
        answer: told.answer,
        report: told.report,
    }
}
