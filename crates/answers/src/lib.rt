// Answers by their fields, as document 01 gives them (construction, specs/Answers): the number of a refusal, tests of an answer, and its fields put
// into a buffer as the crate grammar does, each after a comma: bytes that do not fit fall away, and the place told is past the text all the
// same. It rests on the crates grammar (words and decimals), construction, which declares the types and defines the fields, and labels.
#![tactic(auto)]

pub mod reports; // reports.rt: what is printed of a report
pub mod kinds; // kinds.rt: whether an answer is taken, run or refused

ghost use Rattle.std.specs.Prelude.{◌≡◌, ◌++◌, ◌∷◌, [], ◌+◌, ◌≤◌, length};
ghost use Rattle.grammar.specs.Writing.{decimal, Put};
ghost use Rattle.construction.specs.declared.answers.Answer.{Answer as AnswerOf};
ghost use Rattle.construction.specs.Answers.{number_of, refused_with, fields, bytes, word_text, done_word, output_numbers, answer_fields, verdict_fields, written_fields, row_fields, numbers_text, fields_text};

use construction::answers::{Answer, Refusal};
use construction::cells::{Words, Yield};
use construction::texts::RefusedAt;
use grammar::writing::{put_decimal, put_word};

// The number of a refusal.
// A function in place of `From`: the type stands in construction, which has no function, and u64 in std. So the new form is no plainer.
pub fn number_of(refusal: Refusal) -> u64
    ensures { result ≡ number_of refusal }
{
    match refusal {
        Refusal::TooLong => 1,
        Refusal::Malformed => 2,
        Refusal::OutOfRange => 3,
        Refusal::UnknownCode => 4,
        Refusal::NoProcess => 5,
        Refusal::NoProgram => 6,
        Refusal::Busy => 7,
        Refusal::NotBusy => 8,
        Refusal::NoPlace => 9,
        Refusal::LimitReached => 10,
        Refusal::ShortBuffer => 11,
        Refusal::OperandOutOfRange => 12,
        Refusal::UnusedOperand => 13,
        Refusal::TooHeavy => 14,
        Refusal::NotAhead => 15,
        Refusal::Unsettled => 16,
        Refusal::TooLarge => 17,
        Refusal::BadTerms => 18,
        Refusal::NoAllowance => 19,
    }
}

// A word and a number after it.
pub fn put_number(buffer: &mut [u8], at: usize, word: &[u8], value: u64) -> usize
    ensures { Put buffer.old at (word.now ++ decimal value) result buffer.new × (result ≤ at + (length word.now + 20)) }
{
    let next = put_word(buffer, at, word);
    put_decimal(buffer, next, value)
}

// `refused` and the number.
pub fn put_refusal(buffer: &mut [u8], at: usize, refusal: Refusal) -> usize
    ensures { Put buffer.old at (fields_text (refused_with (number_of refusal))) result buffer.new × (result ≤ at + 29) }
{
    put_number(buffer, at, b",refused,", number_of(refusal))
}

// Four outputs, each after a comma.
fn put_outputs(buffer: &mut [u8], at: usize, outputs: Words) -> usize
    ensures { Put buffer.old at (numbers_text (output_numbers outputs)) result buffer.new × (result ≤ at + 84) }
{
    let i = put_number(buffer, at, b",", outputs.w0 as u64);
    let j = put_number(buffer, i, b",", outputs.w1 as u64);
    let k = put_number(buffer, j, b",", outputs.w2 as u64);
    put_number(buffer, k, b",", outputs.w3 as u64)
}

// `fault` or `done`.
fn put_done_word(buffer: &mut [u8], at: usize, fault: bool) -> usize
    ensures { Put buffer.old at (word_text (bytes (done_word fault))) result buffer.new × (result ≤ at + 6) }
{
    if fault {
        return put_word(buffer, at, b",fault");
    }
    put_word(buffer, at, b",done")
}

// `done` or `fault`, the gate number, four outputs and the operation's own steps.
fn put_done(buffer: &mut [u8], at: usize, number: u64, yields: Yield, steps: u64) -> usize
    ensures { Put buffer.old at (fields_text (answer_fields (AnswerOf.Done number yields steps))) result buffer.new × (result ≤ at + 132) }
{
    let outputs = yields.outputs;
    let i = put_done_word(buffer, at, yields.fault);
    let j = put_number(buffer, i, b",", number);
    let k = put_outputs(buffer, j, outputs);
    put_number(buffer, k, b",", steps)
}

// `refused`, the number and a line.
fn put_refused_at(buffer: &mut [u8], at: usize, refusal: Refusal, line: u64) -> usize
    ensures { Put buffer.old at (fields_text (fields "refused" (number_of refusal ∷ line ∷ []))) result buffer.new × (result ≤ at + 50) }
{
    let next = put_refusal(buffer, at, refusal);
    put_number(buffer, next, b",", line)
}

// The answer to a call, an exit request, a step, a read or a change.
pub fn put_answer(buffer: &mut [u8], at: usize, answer: Answer) -> usize
    ensures { Put buffer.old at (fields_text (answer_fields answer)) result buffer.new × (result ≤ at + 132) }
{
    match answer {
        Answer::Taken => put_word(buffer, at, b",taken"),
        Answer::Run => put_word(buffer, at, b",run"),
        Answer::Done {
            number,
            yields,
            steps,
        } => put_done(buffer, at, number, yields, steps),
        Answer::Exited { steps } => put_number(buffer, at, b",exited,", steps),
        Answer::Value(x) => put_number(buffer, at, b",", x as u64),
        Answer::Refused(refusal) => put_refusal(buffer, at, refusal),
        Answer::RefusedAt { refusal, line } => put_refused_at(buffer, at, refusal, line),
    }
}

// The verdict on a card text.
pub fn put_verdict(buffer: &mut [u8], at: usize, verdict: Result<(), RefusedAt>) -> usize
    ensures { Put buffer.old at (fields_text (verdict_fields verdict)) result buffer.new × (result ≤ at + 50) }
{
    match verdict {
        Ok(()) => put_word(buffer, at, b",accepted"),
        Err(RefusedAt { refusal, line }) => put_refused_at(buffer, at, refusal, line),
    }
}

// The answer of the writer.
pub fn put_written(buffer: &mut [u8], at: usize, written: Result<usize, Refusal>) -> usize
    ensures { Put buffer.old at (fields_text (written_fields written)) result buffer.new × (result ≤ at + 29) }
{
    match written {
        Ok(length) => put_number(buffer, at, b",", length as u64),
        Err(refusal) => put_refusal(buffer, at, refusal),
    }
}

// The answer to a swap on a lent row.
pub fn put_row_swap(buffer: &mut [u8], at: usize, answer: Result<bool, Refusal>) -> usize
    ensures { Put buffer.old at (fields_text (row_fields answer)) result buffer.new × (result ≤ at + 29) }
{
    match answer {
        Ok(true) => put_word(buffer, at, b",won"),
        Ok(false) => put_word(buffer, at, b",lost"),
        Err(refusal) => put_refusal(buffer, at, refusal),
    }
}
