// What the two files of the program `schedules` say (document 02, order 13): the card with one call per process made, or the one line that is printed
// instead. It rests on the crates grammar, construction, executions, answers, calls (the calls text), commands (the lines that are printed), reader (the card
// text) and listing (refusals 6 and 17, the calls made).
#![tactic(auto)]

ghost use Rattle.std.specs.Prelude.{◌≡◌, true, false, ◌≤◌};
ghost use Rattle.grammar.specs.Writing.{Put};
ghost use Rattle.construction.specs.Answers.{number_of};
ghost use Rattle.schedule_files.specs.Files.{refusal_line, Prepares};

use answers::put_refusal;
use calls::reading::{put_line_refusal, read_calls};
use calls::requests_in;
use commands::printing::{put_calls_refusal, put_card_refusal};
use construction::answers::Refusal;
use construction::card::Card;
use grammar::writing::{put_byte, put_word};
use listing::judging::{are_callable, is_listable};
use listing::starting::call_all;

// Whether there is a listing, the card with its calls made, and the length of what is printed instead. It is no Result, as `Prepares` tells the card of a refusal too.
#[derive(Clone, Copy)]
pub struct Prepared {
    pub ready: bool,
    pub card: Card,
    pub length: usize,
}

// The most bytes of calls that are read.
const LIMIT: usize = 65_536;

// The line of a refused listing.
fn put_refusal_line(buffer: &mut [u8], refusal: Refusal) -> usize
    ensures { Put buffer.old 0 (refusal_line (number_of refusal)) result buffer.new × (result ≤ 269) }
{
    let i = put_word(buffer, 0, b"schedules");
    let j = put_refusal(buffer, i, refusal);
    put_byte(buffer, j, b'\n')
}

// No listing: a line is printed.
fn over(card: Card, length: usize) -> Prepared
    ensures { result ≡ record { ready = false; card = card; length = length } }
{
    Prepared {
        ready: false,
        card,
        length,
    }
}

// The card and the calls, judged: the card, the length of the calls, their lines, 6, 17.
pub fn prepare(card: &[u8], calls: &[u8], length: u32, buffer: &mut [u8]) -> Prepared
    ensures { Prepares card.now calls.now length buffer.old result buffer.new }
{
    let opened = reader::open(card);
    let first = opened.card;
    if let Err(refused) = opened.verdict {
        let end = put_card_refusal(buffer, refused);
        return over(first, end);
    }
    if LIMIT < calls.len() {
        let end = put_calls_refusal(buffer);
        return over(first, end);
    }
    let words = match read_calls(calls, first.process_count) {
        Ok(words) => words,
        Err(wrong) => {
            let end = put_line_refusal(buffer, wrong.line);
            return over(first, end);
        }
    };
    let requests = requests_in(&words);
    if !are_callable(first, requests) {
        let end = put_refusal_line(buffer, Refusal::NoProgram);
        return over(first, end);
    }
    if !is_listable(first, length) {
        let end = put_refusal_line(buffer, Refusal::TooLarge);
        return over(first, end);
    }
    Prepared {
        ready: true,
        card: call_all(first, requests),
        length: 0,
    }
}
