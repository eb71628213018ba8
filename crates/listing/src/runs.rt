// Schedules in which every step runs on. How soon an operation can return is known by its place, so where nothing can return the lines are those of the busy
// processes, and no card is stepped or copied: most branches of a listing are such near their ends.
ghost use Rattle.std.specs.Prelude.{◌≡◌, ◌||◌, ◌-◌, ◌<◌, take, ltb};
ghost use Rattle.construction.specs.Requests.{is_idle};
ghost use Rattle.listing.specs.Prefixes.{Holds, longest, capacity, Lines};
ghost use Rattle.listing.specs.Runs.{distance, place_at, are_far, runs_on, run_text, runs_text};

use crate::branches::{is_idle_at, put_line};
use answers::put_answer;
use construction::accesses::{Control, Label};
use construction::answers::Answer;
use grammar::writing::put_decimal;
use machine::places::is_idle;

// The fewest steps with which an operation at a place can return.
fn distance(place: Label) -> u8
    ensures { result ≡ distance place }
{
    match place {
        Label::Idle => 0,
        Label::P1 => 5,
        Label::P3 => 4,
        Label::P5 => 3,
        Label::P7 => 2,
        Label::P10 => 4,
        Label::C2 => 3,
        Label::C4 => 2,
        Label::P13 => 3,
        Label::P14 => 2,
        Label::P16 => 3,
        Label::H21 => 5,
        Label::H36 => 5,
        Label::P19 => 4,
        Label::P20 => 3,
        Label::P21 => 2,
        Label::P22 => 1,
        Label::F1 => 1,
        Label::F3 => 1,
        Label::P6 => 3,
    }
}

// The place of process k, idle past the last.
pub(crate) fn place_at(controls: [Control; 8], k: u8) -> Label
    ensures { result ≡ place_at controls k }
{
    match controls.get(k as usize) {
        Some(control) => control.place,
        None => Label::Idle,
    }
}

// Whether an operation at a place cannot return with n steps.
fn is_far(n: u8, place: Label) -> bool
    ensures { result ≡ (is_idle place || ltb n (distance place)) }
{
    is_idle(place) || n < distance(place)
}

// Whether none of the first processes can.
fn are_far(n: u8, controls: [Control; 8], count: u8) -> bool
    ensures { result ≡ are_far n controls count }
{
    for m in (0..count).rev() {
        if !is_far(n, place_at(controls, m)) {
            return false;
        }
    }
    true
}

// Whether process k can step, and neither with that step nor with those left after it can any process return or reach the step limit.
pub(crate) fn runs_on(
    left: u8,
    controls: [Control; 8],
    count: u8,
    k: u8,
    steps: u64,
    limit: u64,
) -> bool
    requires { 0 < left }
    ensures { result ≡ runs_on left controls count k steps limit }
{
    let place = place_at(controls, k);
    let near = distance(place);
    if near <= left {
        return false;
    }
    if !are_far(left - 1, controls, count) {
        return false;
    }
    if limit < steps {
        return false;
    }
    if limit - steps < left as u64 {
        return false;
    }
    true
}

// The schedules that process k begins: none where it is idle.
#[cycle(put_run_put_runs)]
pub(crate) fn put_run(
    buffer: &mut [u8],
    at: usize,
    left: u8,
    controls: [Control; 8],
    count: u8,
    k: u8,
    numbers: &mut [u8],
    x: usize,
    answers: &mut [u8],
    y: usize,
) -> usize
    requires { (0 < left) × (k < count) × Holds count left numbers.old x answers.old y }
    ensures { Lines buffer.old at
        (run_text controls k (take x numbers.old) (take y answers.old) (λ z w. runs_text (left - 1) controls count z w))
        (capacity (left - 1) (longest left x y)) result buffer.new
        numbers.old x numbers.new answers.old y answers.new }
{
    if is_idle_at(controls, k) {
        return at;
    }
    let i = put_decimal(numbers, x, k as u64);
    let j = put_answer(answers, y, Answer::Run);
    put_runs(
        buffer,
        at,
        left - 1,
        controls,
        count,
        numbers,
        i,
        answers,
        j,
    )
}

// All schedules of this many steps.
#[cycle(put_run_put_runs)]
fn put_runs(
    buffer: &mut [u8],
    at: usize,
    left: u8,
    controls: [Control; 8],
    count: u8,
    numbers: &mut [u8],
    x: usize,
    answers: &mut [u8],
    y: usize,
) -> usize
    requires { Holds count left numbers.old x answers.old y }
    ensures { Lines buffer.old at (runs_text left controls count (take x numbers.old) (take y answers.old))
        (capacity left (longest left x y)) result buffer.new
        numbers.old x numbers.new answers.old y answers.new }
{
    if left == 0 {
        return put_line(buffer, at, &numbers[..x], &answers[..y]);
    }
    let mut i = at;
    for k in 0..count {
        i = put_run(buffer, i, left, controls, count, k, numbers, x, answers, y);
    }
    i
}
