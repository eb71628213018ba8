// An answer as a status, and its numbers put into an array that the caller lends.
ghost use Rattle.std.specs.Prelude.{◌≡◌, [], ◌∷◌, set};
ghost use Rattle.construction.specs.declared.answers.Answer.{Answer as AnswerOf};
ghost use Rattle.construction.specs.Answers.{number_of, output_numbers};
ghost use Rattle.construction.specs.Reports.{swap_byte};
ghost use Rattle.codes.specs.Parts.{stores};
ghost use Rattle.embedding.specs.Numbers.{told, status_of, done_kind, numbers_of, verdict_status, verdict_numbers, written_status, written_numbers, cell_letter, cell_number, report_numbers, count_numbers};

use answers::number_of;
use answers::reports::swap_byte;
use construction::accesses::{Cell, LabelRow};
use construction::answers::{Answer, Refusal, Report};
use construction::cells::{Words, Yield};
use construction::texts::RefusedAt;
use labels::label_row;
use lent_steps::tracing::Told;
use lent_sweep::Counts;

// The number of a refusal in 32 bits.
// Refusals, answers and cells as numbers at fixed places here and below: the C interface.
pub(crate) fn status(refusal: Refusal) -> u32
    ensures { result ≡ number_of refusal }
{
    number_of(refusal) as u32
}

// Number k of a lent array, if it has one.
fn put(out: &mut [u64], k: usize, number: u64)
    ensures { out.new ≡ set out.old k number }
{
    if k < out.len() {
        out[k] = number;
    }
}

// The kind of an operation that is done.
fn done_kind(fault: bool) -> u64
    ensures { result ≡ done_kind fault }
{
    if fault { 2 } else { 1 }
}

// Four outputs, from number 3 on.
fn put_outputs(out: &mut [u64], outputs: Words)
    ensures { out.new ≡ stores out.old 3 (output_numbers outputs) }
{
    put(out, 3, outputs.w0 as u64);
    put(out, 4, outputs.w1 as u64);
    put(out, 5, outputs.w2 as u64);
    put(out, 6, outputs.w3 as u64);
}

// An operation that is done: its kind, its own steps, its gate number and its outputs.
fn put_done(out: &mut [u64], number: u64, yields: Yield, steps: u64)
    ensures { out.new ≡ told out.old (numbers_of (AnswerOf.Done number yields steps)) }
{
    let outputs = yields.outputs;
    put(out, 0, done_kind(yields.fault));
    put(out, 1, steps);
    put(out, 2, number);
    put_outputs(out, outputs);
}

// The answer to a call, an exit request, a step, a read or a change.
pub(crate) fn tell(out: &mut [u64], answer: Answer) -> u32
    ensures { (result ≡ status_of answer) × (out.new ≡ told out.old (numbers_of answer)) }
{
    match answer {
        Answer::Taken => 0,
        Answer::Run => {
            put(out, 0, 0);
            0
        }
        Answer::Done {
            number,
            yields,
            steps,
        } => {
            put_done(out, number, yields, steps);
            0
        }
        Answer::Exited { steps } => {
            put(out, 0, 3);
            put(out, 1, steps);
            0
        }
        Answer::Value(x) => {
            put(out, 0, x as u64);
            0
        }
        Answer::Refused(refusal) => status(refusal),
        Answer::RefusedAt { refusal, line } => {
            put(out, 0, line);
            status(refusal)
        }
    }
}

// An answer that has no numbers to put anywhere.
pub(crate) fn status_of(answer: Answer) -> u32
    ensures { result ≡ status_of answer }
{
    match answer {
        Answer::Taken => 0,
        Answer::Run => 0,
        Answer::Done {
            number: _,
            yields: _,
            steps: _,
        } => 0,
        Answer::Exited { steps: _ } => 0,
        Answer::Value(_) => 0,
        Answer::Refused(refusal) => status(refusal),
        Answer::RefusedAt { refusal, line: _ } => status(refusal),
    }
}

// The verdict on a card text.
pub(crate) fn tell_verdict(out: &mut [u64], verdict: Result<(), RefusedAt>) -> u32
    ensures { (result ≡ verdict_status verdict) × (out.new ≡ told out.old (verdict_numbers verdict)) }
{
    match verdict {
        Ok(()) => 0,
        Err(RefusedAt { refusal, line }) => {
            put(out, 0, line);
            status(refusal)
        }
    }
}

// The answer of the writer.
pub(crate) fn tell_written(out: &mut [u64], written: Result<usize, Refusal>) -> u32
    ensures { (result ≡ written_status written) × (out.new ≡ told out.old (written_numbers written)) }
{
    match written {
        Ok(length) => {
            put(out, 0, length as u64);
            0
        }
        Err(refusal) => status(refusal),
    }
}

fn cell_letter(cell: Cell) -> u64
    ensures { result ≡ cell_letter cell }
{
    match cell {
        Cell::None => 45,
        Cell::Gate => 71,
        Cell::Announcement(_) => 65,
        Cell::Record(_) => 82,
    }
}

fn cell_number(cell: Cell) -> u64
    ensures { result ≡ cell_number cell }
{
    match cell {
        Cell::None => 0,
        Cell::Gate => 0,
        Cell::Announcement(m) => m as u64,
        Cell::Record(v) => v as u64,
    }
}

// The label: its letter and the number of its line.
fn put_name(out: &mut [u64], row: LabelRow)
    ensures { out.new ≡ stores out.old 0 (row.letter ∷ row.number ∷ []) }
{
    put(out, 0, row.letter as u64);
    put(out, 1, row.number as u64);
}

// The cell: its letter and its number.
fn put_cell(out: &mut [u64], cell: Cell)
    ensures { out.new ≡ stores out.old 2 (cell_letter cell ∷ cell_number cell ∷ []) }
{
    put(out, 2, cell_letter(cell));
    put(out, 3, cell_number(cell));
}

// The swap, the gate number, the word of noted variables and their count.
fn put_rest(out: &mut [u64], report: Report)
    ensures { out.new ≡ stores out.old 4 (swap_byte report.swap ∷ report.number ∷ report.noted ∷ report.count ∷ []) }
{
    let swap = report.swap;
    put(out, 4, swap_byte(swap) as u64);
    put(out, 5, report.number);
    put(out, 6, report.noted);
    put(out, 7, report.count as u64);
}

// A report; nothing of no access.
pub(crate) fn tell_report(out: &mut [u64], report: Report)
    ensures { out.new ≡ told out.old (report_numbers report) }
{
    let label = report.label;
    let cell = report.cell;
    let row = label_row(label);
    if row.letter == 0 {
        return;
    }
    put_name(out, row);
    put_cell(out, cell);
    put_rest(out, report);
}

// The answer to a traced step, and its report.
pub(crate) fn tell_both(out: &mut [u64], report: &mut [u64], both: Told) -> u32
    ensures { (result ≡ status_of both.answer) × (out.new ≡ told out.old (numbers_of both.answer)) × (report.new ≡ told report.old (report_numbers both.report)) }
{
    let access = both.report;
    let answer = both.answer;
    tell_report(report, access);
    tell(out, answer)
}

// What a run over a schedule comes to.
pub(crate) fn tell_counts(out: &mut [u64], counts: Counts)
    ensures { out.new ≡ told out.old (count_numbers counts) }
{
    put(out, 0, counts.accepted);
    put(out, 1, counts.done);
    put(out, 2, counts.faulted);
    put(out, 3, counts.exited);
    put(out, 4, counts.longest);
}
