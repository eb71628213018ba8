// The line of a case.
ghost use Rattle.std.specs.Prelude.{◌≡◌};
ghost use Rattle.grammar.specs.Writing.{Put};
ghost use Rattle.text_cases.specs.Lines.{agreement_text, outcome_text, outcomes_text, case_text};

use crate::comparing::outcomes;
use crate::{Outcome, Outcomes};
use answers::{put_verdict, put_written};
use grammar::writing::{put_byte, put_decimal, put_word};

fn put_agreement(line: &mut [u8], at: usize, same: bool) -> usize
    ensures { Put line.old at (agreement_text same) result line.new }
{
    if same {
        put_word(line, at, b",same")
    } else {
        put_word(line, at, b",differs")
    }
}

fn put_outcome(line: &mut [u8], at: usize, outcome: Outcome) -> usize
    ensures { Put line.old at (outcome_text outcome) result line.new }
{
    let next = put_written(line, at, outcome.written);
    put_agreement(line, next, outcome.same)
}

fn put_outcomes(line: &mut [u8], at: usize, outcomes: Outcomes) -> usize
    ensures { Put line.old at (outcomes_text outcomes) result line.new }
{
    let i = put_outcome(line, at, outcomes.more);
    let j = put_outcome(line, i, outcomes.exact);
    let k = put_outcome(line, j, outcomes.short);
    put_outcome(line, k, outcomes.none)
}

// The line of a text and of the text that the buffers are compared with.
pub(crate) fn put_case(line: &mut [u8], number: u64, text: &[u8], wanted: &[u8]) -> usize
    ensures { Put line.old 0 (case_text number text.now wanted.now) result line.new }
{
    let opened = reader::open(text);
    let verdict = opened.verdict;
    let compared = outcomes(opened.card, wanted, text.len().min(8000));
    let i = put_decimal(line, 0, number);
    let j = put_verdict(line, i, verdict);
    let k = put_outcomes(line, j, compared);
    put_byte(line, k, b'\n')
}
