// Whether a request is taken, by numbers and the place of its process (document 01, 'Turned back': refusals 5 to 8 and 10; document 02, order 11: 15
// and 16), and the answer to a step that was.
ghost use Rattle.std.specs.Prelude.{◌≡◌, ◌&&◌, ltb, IfOk, IsOk};
ghost use Rattle.construction.specs.Readings.{verdict_of};
ghost use Rattle.construction.specs.Requests.{step_answer};
ghost use Rattle.requests.specs.Judging.{answer_of_judged, answer_of_change, call_judged, exit_judged, step_judged, change_judged};

use construction::accesses::{Control, Label};
use construction::answers::{Answer, Refusal};
use construction::cells::Announcement;
use construction::texts::RefusedAt;
use machine::announcement::returned;
use machine::places::is_idle;

// Whether a number is below a count and below the room for it.
pub fn is_below(number: u32, count: u8, room: u32) -> bool
    ensures { result ≡ ltb number count && ltb number room }
{
    number < count as u32 && number < room
}

// A call: refusals 5, 6 and 7, or taken.
pub fn judge_call(
    process: u32,
    process_count: u8,
    program: u32,
    program_count: u8,
    place: Label,
) -> Result<(), Refusal>
    ensures { answer_of_judged result ≡ call_judged process process_count program program_count place }
{
    if !is_below(process, process_count, 8) {
        return Err(Refusal::NoProcess);
    }
    if !is_below(program, program_count, 8) {
        return Err(Refusal::NoProgram);
    }
    if !is_idle(place) {
        return Err(Refusal::Busy);
    }
    Ok(())
}

// An exit request: refusals 5 and 8, or taken.
pub fn judge_exit(process: u32, process_count: u8, place: Label) -> Result<(), Refusal>
    ensures { answer_of_judged result ≡ exit_judged process process_count place }
{
    if !is_below(process, process_count, 8) {
        return Err(Refusal::NoProcess);
    }
    if is_idle(place) {
        return Err(Refusal::NotBusy);
    }
    Ok(())
}

// A step: refusals 5, 8 and 10, or taken.
pub fn judge_step(
    process: u32,
    process_count: u8,
    place: Label,
    steps: u64,
    limit: u64,
) -> Result<(), Refusal>
    ensures { answer_of_judged result ≡ step_judged process process_count place steps limit }
{
    judge_exit(process, process_count, place)?;
    if limit <= steps {
        return Err(Refusal::LimitReached);
    }
    Ok(())
}

// A change of a program: refusal 6, then that of its text, 15 and 16, each with its line, or taken; then the text was read. `number` is the gate's, `last` the
// number from which the program's last change holds, and `behind` tells whether an operation under way last read a gate number below that.
pub fn judge_change<T>(
    program: u32,
    program_count: u8,
    read: &Result<T, RefusedAt>,
    number: u64,
    from: u64,
    last: u64,
    behind: bool,
) -> Result<(), RefusedAt>
    ensures judged { answer_of_change result ≡ change_judged program program_count (verdict_of read.now) number from last behind }
    ensures taken { IfOk result (λ y. IsOk read.now) }
{
    if !is_below(program, program_count, 8) {
        return Err(RefusedAt {
            refusal: Refusal::NoProgram,
            line: 0,
        });
    }
    if let Err(refused) = read {
        return Err(*refused);
    }
    if from <= number {
        return Err(RefusedAt {
            refusal: Refusal::NotAhead,
            line: 0,
        });
    }
    if number < last || behind {
        return Err(RefusedAt {
            refusal: Refusal::Unsettled,
            line: 0,
        });
    }
    Ok(())
}

// 'Returning is local work of the last access': the answer to a step that was taken, by the control after it, the announcement last read and
// the operation's own steps.
pub fn answer_of(control: Control, last: Announcement, steps: u64) -> Answer
    ensures { result ≡ step_answer control.place last steps }
{
    if is_idle(control.place) {
        return returned(last, steps);
    }
    Answer::Run
}
