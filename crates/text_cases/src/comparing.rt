// What the writer does in a buffer, and whether the buffer then holds what it must.
ghost use Rattle.std.specs.Prelude.{◌≡◌, ◌≤◌};
ghost use Rattle.text_cases.specs.Comparing.{expected_at, agrees_with, bytes_of, outcome_of, outcomes_of};

use crate::{Outcome, Outcomes};
use construction::answers::Refusal;
use construction::card::Card;
use grammar::reading::byte_at;

// What stands in a buffer before it is lent.
const FILLER: u8 = 165;

// The byte that a buffer must hold at a place: the text as far as it was written, then what was there before.
fn expected(text: &[u8], told: usize, k: usize) -> u8
    ensures { result ≡ expected_at text.now told k }
{
    if k < told { byte_at(text, k) } else { FILLER }
}

// Whether a buffer holds what it must at every place, after so many bytes of the text were written.
fn agrees(buffer: &[u8], text: &[u8], told: usize) -> bool
    ensures { result ≡ agrees_with buffer.now text.now told }
{
    let end = told.min(buffer.len());
    for k in 0..end {
        if buffer[k] != expected(text, told, k) {
            return false;
        }
    }
    // Apart, since nearly all bytes stand here: with one loop a run takes half as much again.
    for k in end..buffer.len() {
        if buffer[k] != FILLER {
            return false;
        }
    }
    true
}

// How many bytes were written.
fn bytes_of(written: Result<usize, Refusal>) -> usize
    ensures { result ≡ bytes_of written }
{
    match written {
        Ok(told) => told,
        Err(_) => 0,
    }
}

// What the writer does in the first bytes of a buffer.
fn outcome(card: Card, wanted: &[u8], room: usize) -> Outcome
    requires { room ≤ 8192 }
    ensures { result ≡ outcome_of card wanted.now room }
{
    let mut buffer = [FILLER; 8192];
    let written = writer::write(card, &mut buffer[..room]);
    let same = agrees(&buffer, wanted, bytes_of(written));
    Outcome { written, same }
}

pub(crate) fn outcomes(card: Card, wanted: &[u8], room: usize) -> Outcomes
    requires { room ≤ 8000 }
    ensures { result ≡ outcomes_of card wanted.now room }
{
    Outcomes {
        more: outcome(card, wanted, room + 8),
        exact: outcome(card, wanted, room),
        short: outcome(card, wanted, room.saturating_sub(1)),
        none: outcome(card, wanted, 0),
    }
}
