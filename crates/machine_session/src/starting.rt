// Where a session starts: the terms, the cards one after the other, the length of the calls.
ghost use Rattle.std.specs.Prelude.{◌≡◌, ◌∷◌, []};
ghost use Rattle.machine_session.specs.Starting.{one_verdict, one_blocks, opened_cards, Starts};

use crate::{CardsOpened, Printed, State};
use allowance::Allowance;
use commands::printing::put_calls_refusal;
use construction::texts::RefusedAt;
use machine_commands::printing::{put_card_refusal, put_terms_refusal};
use machine_terms::read_terms;
use shared_processor::cards::open_card;

// The most bytes of calls that are read.
const LIMIT: usize = 65_536;

// Opens the card of machine m, if it is there.
fn open_one(blocks: &mut [u64], count: u64, m: u32, text: &[u8]) -> Result<(), RefusedAt>
    ensures { (result ≡ one_verdict count m text.now blocks.old) × (blocks.new ≡ one_blocks count m text.now blocks.old) }
{
    if count <= m as u64 {
        return Ok(());
    }
    open_card(blocks, m, text)
}

// Opens the cards of the machines, from machine 0 on, up to the first that is refused.
fn open_cards(
    blocks: &mut [u64],
    count: u64,
    card0: &[u8],
    card1: &[u8],
    card2: &[u8],
    card3: &[u8],
) -> CardsOpened
    ensures { (result ≡ (opened_cards count 0 (card0.now ∷ card1.now ∷ card2.now ∷ card3.now ∷ []) blocks.old).opened) × (blocks.new ≡ (opened_cards count 0 (card0.now ∷ card1.now ∷ card2.now ∷ card3.now ∷ []) blocks.old).blocks) }
{
    let first = open_one(blocks, count, 0, card0);
    if let Err(_) = first {
        return CardsOpened {
            machine: 0,
            verdict: first,
        };
    }
    let second = open_one(blocks, count, 1, card1);
    if let Err(_) = second {
        return CardsOpened {
            machine: 1,
            verdict: second,
        };
    }
    let third = open_one(blocks, count, 2, card2);
    if let Err(_) = third {
        return CardsOpened {
            machine: 2,
            verdict: third,
        };
    }
    let fourth = open_one(blocks, count, 3, card3);
    if let Err(_) = fourth {
        return CardsOpened {
            machine: 3,
            verdict: fourth,
        };
    }
    CardsOpened {
        machine: 4,
        verdict: fourth,
    }
}

// A session before its first request, after what is printed before that.
fn begun(allowance: Allowance, at: usize, length: usize) -> Printed
    ensures { result ≡ record { state = record { allowance = allowance; at = at; line = 1 }; length = length } }
{
    let state = State {
        allowance,
        at,
        line: 1,
    };
    Printed { state, length }
}

// Starts a session: a refusal is printed into the buffer, and no request is left after it. Cards past the last machine are not looked at.
pub fn start(
    terms: &[u8],
    card0: &[u8],
    card1: &[u8],
    card2: &[u8],
    card3: &[u8],
    calls: &[u8],
    blocks: &mut [u64],
    buffer: &mut [u8],
) -> Printed
    ensures { Starts terms.now (card0.now ∷ card1.now ∷ card2.now ∷ card3.now ∷ []) calls.now blocks.old buffer.old result blocks.new buffer.new }
{
    let read = read_terms(terms);
    let allowance = read.allowance;
    if let Err(refused) = read.verdict {
        let length = put_terms_refusal(buffer, refused);
        return begun(allowance, calls.len(), length);
    }
    let opened = open_cards(blocks, allowance.count, card0, card1, card2, card3);
    if let Err(refused) = opened.verdict {
        let length = put_card_refusal(buffer, opened.machine, refused);
        return begun(allowance, calls.len(), length);
    }
    if LIMIT < calls.len() {
        let length = put_calls_refusal(buffer);
        return begun(allowance, calls.len(), length);
    }
    begun(allowance, 0, 0)
}
