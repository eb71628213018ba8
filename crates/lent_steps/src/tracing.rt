// Step with its report (document 02, order 1): the step itself is `step`, whose access tells its swap; the rest is read off what it goes by and off what it leaves.
ghost use Rattle.std.specs.Prelude.{◌≡◌};
ghost use Rattle.construction.specs.Tracing.{label_of};
ghost use Rattle.block.specs.Layout.{control_in, exit_in};
ghost use Rattle.lent_steps.specs.Steps.{step_block, step_loan, answer_to, cell_to, report_to};

use crate::stepping::{access_at, advance, answer_in, judge};
use block::cells::process_count;
use block::own::{control, exit, last_gate, mask};
use construction::accesses::{Access, Cell, Label};
use construction::answers::{Answer, Report};
use lent_card::narrow::narrow;
use loan::dictionaries::item;
use reports::{cell_of, label_of, no_report, report_with};

// The answer to a step, and what is told of it.
// Not `Traced` of construction, which has a card by value: no heap, the card stands in the block.
#[derive(Clone, Copy)]
pub struct Told {
    pub answer: Answer,
    pub report: Report,
}

// The label of the access of process i.
fn label_at(b: &[u64], i: u8) -> Label
    ensures { result ≡ label_of (control_in b.now i).place (exit_in b.now i) }
{
    label_of(control(b, i).place, exit(b, i))
}

// The cell that the access of process i touches: line H36 alone looks at the loan.
fn cell_to(b: &[u64], l: &[u64], i: u8) -> Cell
    ensures { result ≡ cell_to b.now l.now i }
{
    let control = control(b, i);
    let access = access_at(b, i);
    match access {
        Access::Write => {
            let item = item(b, l, i, control.target);
            Cell::Record(item.variable)
        }
        _ => cell_of(
            access,
            process_count(b),
            i,
            last_gate(b, i),
            control.target,
            0,
        ),
    }
}

// Step with its report.
pub fn trace(b: &mut [u64], l: &mut [u64], process: u32) -> Told
    ensures { (result.answer ≡ answer_to b.old l.old process) × (result.report ≡ report_to b.old l.old process) × (b.new ≡ step_block b.old l.old process) × (l.new ≡ step_loan b.old l.old process) }
{
    let i = narrow(process);
    if let Err(refusal) = judge(b, l, process, i) {
        return Told {
            answer: Answer::Refused(refusal),
            report: no_report(),
        };
    }
    let label = label_at(b, i);
    let cell = cell_to(b, l, i);
    let swap = advance(b, l, i);
    let report = report_with(label, cell, swap, last_gate(b, i).seq, mask(b, i));
    Told {
        answer: answer_in(b, i),
        report,
    }
}
