// Every short schedule (document 02, order 13) as code: the listing of a card's executions put into a lent buffer, and its length told without writing
// it. The text, the refusals and what a schedule is are defined in the crate executions; the machine is that of the crate card. It rests on the
// crates grammar, construction, executions, answers, machine, opening, requests and card.
#![tactic(auto)]

pub mod branches; // branches.rt: the executions that go on from a card, by recursion on the steps still to choose
mod runs; // runs.rt: schedules in which every step runs on
pub mod pieces; // pieces.rt: the listing in pieces, numbered by its first steps
pub mod judging; // judging.rt: refusals 6 and 17
pub mod starting; // starting.rt: the card as it was opened, with its calls made

ghost use Rattle.std.specs.Prelude.{◌≡◌, [], ◌≤◌};
ghost use Rattle.grammar.specs.Writing.{Put};
ghost use Rattle.executions.specs.Listings.{text_after, measured};
ghost use Rattle.listing.specs.Prefixes.{capacity};
ghost use Rattle.listing.specs.Listed.{Lists};

use crate::branches::put_after;
use crate::judging::{are_callable, is_listable};
use crate::starting::{call_all, reopen};
use construction::answers::Refusal;
use construction::card::Card;
use executions::Request;

// The listing of a card with its calls made, at the front of a buffer, as far as it fits; the place told is its length. 16 process numbers and 16
// answers of at most 132 bytes precede what is still to choose.
fn put_listing(buffer: &mut [u8], card: Card, length: u8) -> usize
    requires { (card.process_count ≤ 3) × (length ≤ 16) }
    ensures { Put buffer.old 0 (text_after length card [] []) result buffer.new × (result ≤ capacity length 2129) }
{
    let mut numbers = [0u8; 16];
    let mut answers = [0u8; 2112];
    put_after(buffer, 0, length, card, &mut numbers, 0, &mut answers, 0)
}

// The length of the listing, which no buffer is needed for; or 6 or 17.
pub fn measure(card: Card, calls: [Request; 8], length: u32) -> Result<usize, Refusal>
    ensures { result ≡ measured card calls length }
{
    let opened = reopen(card);
    if !are_callable(opened, calls) {
        return Err(Refusal::NoProgram);
    }
    if !is_listable(opened, length) {
        return Err(Refusal::TooLarge);
    }
    let mut none = [0u8; 1];
    let start = call_all(opened, calls);
    Ok(put_listing(&mut none[..0], start, length as u8))
}

// The listing in a lent buffer: 6, 17, or 11 where the buffer is shorter, and it keeps its bytes; else the length.
pub fn list(
    card: Card,
    calls: [Request; 8],
    length: u32,
    buffer: &mut [u8],
) -> Result<usize, Refusal>
    ensures { Lists card calls length buffer.old result buffer.new }
{
    let size = measure(card, calls, length)?;
    if size > buffer.len() {
        return Err(Refusal::ShortBuffer);
    }
    let opened = reopen(card);
    let start = call_all(opened, calls);
    put_listing(buffer, start, length as u8);
    Ok(size)
}
