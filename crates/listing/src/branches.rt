// 'The listing recurs on the steps still to choose' (document 02, order 13): the text of all executions that go on from a card. What was printed of the
// steps chosen so far stands in two small buffers, process numbers and answers, as in a line the numbers come before all answers; a branch
// writes past them, and leaves what stood before. The card is handed on by value, once for each chosen process.
// The buffers and their places are arguments of their own: a struct of them would be made anew at each step, with other places, and every clause would name
// its fields. The schedules of runs.rt recur in the same way but on controls alone, with texts of their own, so that one function for both would be no plainer.
ghost use Rattle.std.specs.Prelude.{◌≡◌, ◌||◌, ◌++◌, ◌∷◌, [], ◌+◌, ◌-◌, ◌<◌, get_or, take, eqb};
ghost use Rattle.grammar.specs.Writing.{Put};
ghost use Rattle.construction.specs.Parts.{idle_control};
ghost use Rattle.construction.specs.Requests.{is_idle, step};
ghost use Rattle.executions.specs.Listings.{branch_text, text_after};
ghost use Rattle.listing.specs.Prefixes.{are_idle, Holds, longest, capacity, Lines};

use crate::runs::{place_at, put_run, runs_on};
use answers::kinds::is_refused;
use answers::put_answer;
use card::step;
use construction::accesses::Control;
use construction::card::Card;
use grammar::writing::{put_byte, put_decimal, put_word};
use machine::places::is_idle;

// Whether process k is idle; one past the last is.
pub(crate) fn is_idle_at(controls: [Control; 8], k: u8) -> bool
    ensures { result ≡ is_idle (get_or controls k idle_control).place }
{
    is_idle(place_at(controls, k))
}

// Whether none of the first processes has an operation under way.
pub(crate) fn are_idle(controls: [Control; 8], count: u8) -> bool
    ensures { result ≡ are_idle controls count }
{
    for n in (0..count).rev() {
        if !is_idle_at(controls, n) {
            return false;
        }
    }
    true
}

// Whether a schedule ends: no step is left to choose, or nothing is under way.
fn has_ended(left: u8, controls: [Control; 8], count: u8) -> bool
    ensures { result ≡ (eqb left 0 || are_idle controls count) }
{
    left == 0 || are_idle(controls, count)
}

// A line: the process numbers, the answers, byte 10.
pub(crate) fn put_line(buffer: &mut [u8], at: usize, numbers: &[u8], answers: &[u8]) -> usize
    ensures { Put buffer.old at (numbers.now ++ (answers.now ++ (10 ∷ []))) result buffer.new }
{
    let i = put_word(buffer, at, numbers);
    let j = put_word(buffer, i, answers);
    put_byte(buffer, j, b'\n')
}

// The executions that process k begins: none where its step is refused.
#[cycle(put_after_put_branch)]
fn put_branch(
    buffer: &mut [u8],
    at: usize,
    left: u8,
    card: Card,
    k: u8,
    numbers: &mut [u8],
    x: usize,
    answers: &mut [u8],
    y: usize,
) -> usize
    requires { (0 < left) × Holds card.process_count left numbers.old x answers.old y }
    ensures { Lines buffer.old at
        (branch_text k (step card k) (take x numbers.old) (take y answers.old) (λ d z w. text_after (left - 1) d z w))
        (capacity (left - 1) (longest left x y)) result buffer.new
        numbers.old x numbers.new answers.old y answers.new }
{
    let stepped = step(card, k as u32);
    if is_refused(stepped.answer) {
        return at;
    }
    let i = put_decimal(numbers, x, k as u64);
    let j = put_answer(answers, y, stepped.answer);
    put_after(buffer, at, left - 1, stepped.card, numbers, i, answers, j)
}

// All executions that go on from a card for this many steps: the one that ends there where none is left or nothing is under way, else each process in turn. Where no process
// can return with the steps that are left, the card is not stepped.
#[cycle(put_after_put_branch)]
pub(crate) fn put_after(
    buffer: &mut [u8],
    at: usize,
    left: u8,
    card: Card,
    numbers: &mut [u8],
    x: usize,
    answers: &mut [u8],
    y: usize,
) -> usize
    requires { Holds card.process_count left numbers.old x answers.old y }
    ensures { Lines buffer.old at (text_after left card (take x numbers.old) (take y answers.old))
        (capacity left (longest left x y)) result buffer.new
        numbers.old x numbers.new answers.old y answers.new }
{
    let controls = card.controls;
    let count = card.process_count;
    if has_ended(left, controls, count) {
        return put_line(buffer, at, &numbers[..x], &answers[..y]);
    }
    let mut i = at;
    for k in 0..count {
        if runs_on(left, controls, count, k, card.steps, card.limit) {
            i = put_run(buffer, i, left, controls, count, k, numbers, x, answers, y);
            continue;
        }
        i = put_branch(buffer, i, left, card, k, numbers, x, answers, y);
    }
    i
}
