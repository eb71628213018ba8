// The listing in pieces, for one that no buffer holds: the executions by their first steps, which a piece's number tells as digits in base p.
ghost use Rattle.std.specs.Prelude.{◌≡◌, ◌+◌, ◌^◌, ◌≤◌, take};
ghost use Rattle.grammar.specs.Writing.{Put};
ghost use Rattle.executions.specs.Listings.{piece_after};
ghost use Rattle.listing.specs.Prefixes.{Holds, longest, capacity, Lines};
ghost use Rattle.listing.specs.Pieces.{pieces_of, piece_text};

use crate::branches::{are_idle, put_after, put_line};
use answers::kinds::is_refused;
use answers::put_answer;
use card::step;
use construction::card::Card;
use grammar::writing::put_decimal;

fn power(base: u8, exponent: u8) -> u32
    requires { (base ≤ 3) × (exponent ≤ 16) }
    ensures { result ≡ base ^ exponent }
{
    (base as u32).pow(exponent as u32)
}

// How many pieces there are with so many first steps; none for more than 3 processes or 16 steps.
pub fn count_pieces(count: u8, first: u8) -> u32
    ensures { result ≡ pieces_of count first }
{
    if count > 3 || first > 16 {
        return 0;
    }
    power(count, first)
}

// Piece j of the executions that go on from a card: first its first steps, then all that go on for this many steps.
fn put_from(
    buffer: &mut [u8],
    at: usize,
    first: u8,
    left: u8,
    j: u32,
    card: Card,
    numbers: &mut [u8],
    x: usize,
    answers: &mut [u8],
    y: usize,
) -> usize
    requires { (first ≤ 16) × Holds card.process_count (first + left) numbers.old x answers.old y }
    ensures { Lines buffer.old at (piece_after first left j card (take x numbers.old) (take y answers.old))
        (capacity left (longest (first + left) x y)) result buffer.new
        numbers.old x numbers.new answers.old y answers.new }
{
    if first == 0 {
        return put_after(buffer, at, left, card, numbers, x, answers, y);
    }
    let controls = card.controls;
    let count = card.process_count;
    if are_idle(controls, count) {
        if j == 0 {
            return put_line(buffer, at, &numbers[..x], &answers[..y]);
        }
        return at;
    }
    let block = power(count, first - 1);
    let k = j / block;
    let stepped = step(card, k);
    if is_refused(stepped.answer) {
        return at;
    }
    let i = put_decimal(numbers, x, k as u64);
    let l = put_answer(answers, y, stepped.answer);
    put_from(
        buffer,
        at,
        first - 1,
        left,
        j % block,
        stepped.card,
        numbers,
        i,
        answers,
        l,
    )
}

// Piece j of a card with its calls made, at the front of a buffer, as far as it fits; the place told is its length.
pub fn put_piece(card: Card, first: u8, left: u8, j: u32, buffer: &mut [u8]) -> usize
    ensures { Put buffer.old 0 (piece_text first left j card) result buffer.new × (result ≤ capacity left 2129) }
{
    if card.process_count > 3 || left > 16 || first > 16 - left {
        return 0;
    }
    let mut numbers = [0u8; 16];
    let mut answers = [0u8; 2112];
    put_from(
        buffer,
        0,
        first,
        left,
        j,
        card,
        &mut numbers,
        0,
        &mut answers,
        0,
    )
}
