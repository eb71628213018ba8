// A session as a dump: into a lent buffer, or in pieces.
ghost use Rattle.std.specs.Prelude.{◌≡◌, ◌≤◌, min};
ghost use Rattle.grammar.specs.Writing.{place_after, Put};
ghost use Rattle.dump.specs.Dump.{time_above};
ghost use Rattle.dump_writer.specs.Courses.{steps_in, counts_in, left_text, dump_text, PutsCommand, Opens, PutsPiece, Writes};

use crate::changes::put_changes;
use crate::dump_lines::{put_above, put_opening};
use crate::rows::row_of;
use crate::{Course, Piece};
use answers::kinds::is_refused;
use commands::Command;
use construction::answers::{Answer, Refusal};
use session::State;
use session::running::advance;

// Whether a command steps a process.
fn is_step(command: Command) -> bool
    ensures { result ≡ steps_in command }
{
    matches!(command, Command::Step { .. } | Command::Trace { .. })
}

// Whether a command was an accepted step.
fn counts(command: Command, answer: Answer) -> bool
    ensures { result ≡ counts_in command answer }
{
    is_step(command) && !is_refused(answer)
}

fn next_step(steps: u64) -> u64
    ensures { result ≡ place_after steps 1 }
{
    steps.saturating_add(1)
}

fn few(count: u8) -> u8
    ensures { result ≡ min 64 count }
{
    64u8.min(count)
}

// Carries out a command of the course and puts what it changes.
fn put_command(course: Course, calls: &[u8], buffer: &mut [u8], at: usize) -> Piece
    ensures { PutsCommand calls.now course buffer.old at result buffer.new }
{
    let advanced = advance(course.session, calls);
    let session = advanced.state;
    if !counts(advanced.command, advanced.answer) {
        let same = Course { session, ..course };
        return Piece { course: same, at };
    }
    let row = row_of(session.card);
    let steps = next_step(course.steps);
    let count = few(course.count);
    let now = put_changes(buffer, at, course.told, steps, count, course.row, row);
    let next = Course {
        session,
        row,
        steps,
        told: now.time,
        ..course
    };
    Piece {
        course: next,
        at: now.at,
    }
}

// The course of a session from a state on, and what is put before its commands.
pub fn open(state: State, buffer: &mut [u8]) -> Piece
    ensures { Opens state buffer.old result buffer.new }
{
    let row = row_of(state.card);
    let count = few(state.card.variable_count);
    let at = put_opening(buffer, count, row);
    let course = Course {
        session: state,
        count,
        row,
        steps: 0,
        told: 0,
    };
    Piece { course, at }
}

// What is put after the last command: the last time, if it was not told.
pub fn put_end(course: Course, buffer: &mut [u8]) -> usize
    ensures { Put buffer.old 0 (time_above course.told course.steps) result buffer.new }
{
    put_above(buffer, 0, course.told, course.steps)
}

// Puts what the commands of a course change, as many whole commands at a time as the buffer takes.
pub fn put_commands(course: Course, calls: &[u8], buffer: &mut [u8]) -> Piece
    ensures { PutsPiece calls.now course buffer.old result buffer.new }
{
    let mut course = course;
    let mut length: usize = 0;
    // The next place is known when a command is read, so no range gives it.
    while course.session.at < calls.len() {
        let piece = put_command(course, calls, buffer, length);
        if buffer.len() < piece.at {
            return Piece { course, at: length };
        }
        course = piece.course;
        length = piece.at;
    }
    Piece { course, at: length }
}

// What is left of a course, as far as the buffer takes it.
fn put_left(course: Course, calls: &[u8], buffer: &mut [u8], at: usize) -> usize
    requires { course.steps ≤ course.session.at }
    ensures { Put buffer.old at (left_text calls.now course) result buffer.new }
{
    let mut course = course;
    let mut i = at;
    // As in `put_commands`, no range gives the next place.
    while course.session.at < calls.len() {
        let piece = put_command(course, calls, buffer, i);
        course = piece.course;
        i = piece.at;
    }
    put_above(buffer, i, course.told, course.steps)
}

// The dump of a session at the front of a buffer, as far as it fits; the place told is its length.
fn put_dump(card: &[u8], calls: &[u8], buffer: &mut [u8]) -> usize
    ensures { Put buffer.old 0 (dump_text card.now calls.now) result buffer.new }
{
    let opened = reader::open(card);
    let first = opened.card;
    let state = State {
        card: first,
        at: 0,
        line: 1,
    };
    let piece = open(state, buffer);
    put_left(piece.course, calls, buffer, piece.at)
}

// The length of the dump is learnt from a buffer of no bytes; then the dump is put where it fits.
pub fn write(card: &[u8], calls: &[u8], buffer: &mut [u8]) -> Result<usize, Refusal>
    ensures { Writes card.now calls.now buffer.old result buffer.new }
{
    let length = put_dump(card, calls, &mut buffer[..0]);
    if length <= buffer.len() {
        put_dump(card, calls, buffer);
        Ok(length)
    } else {
        Err(Refusal::ShortBuffer)
    }
}
