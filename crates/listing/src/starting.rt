// Where a listing begins: the card as it was opened, whatever it has done since, and one call per process made then.
ghost use Rattle.std.specs.Prelude.{◌≡◌};
ghost use Rattle.construction.specs.History.{run};
ghost use Rattle.executions.specs.Schedules.{calls_of};
ghost use Rattle.executions.specs.Listings.{reopened};

use crate::judging::request_at;
use card::call;
use construction::card::Card;
use construction::texts::Contents;
use executions::Request;
use opening::fresh;

pub(crate) fn reopen(card: Card) -> Card
    ensures { result ≡ reopened card }
{
    let starts = card.starts;
    let programs = card.programs;
    fresh(Contents {
        process_count: card.process_count,
        variable_count: card.variable_count,
        program_count: card.program_count,
        limit: card.limit,
        starts,
        programs,
    })
}

pub fn call_all(card: Card, calls: [Request; 8]) -> Card
    ensures { result ≡ (run card (calls_of card calls)).card }
{
    let mut c = card;
    for k in 0..card.process_count {
        let request = request_at(calls, k);
        c = call(c, k as u32, request.program, request.inputs).card;
    }
    c
}
