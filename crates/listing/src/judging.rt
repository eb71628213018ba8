// Whether a listing is made at all (document 02, order 13): every call's program is there (6), and neither the card nor the length is too large (17).
ghost use Rattle.std.specs.Prelude.{◌≡◌, get_or};
ghost use Rattle.executions.specs.Schedules.{no_request};
ghost use Rattle.executions.specs.Listings.{is_callable, is_listable};

use construction::card::Card;
use executions::Request;
use opening::zeros;
use requests::judging::is_below;

// Call k, one of program 0 past the end.
pub fn request_at(calls: [Request; 8], k: u8) -> Request
    ensures { result ≡ get_or calls k no_request }
{
    match calls.get(k as usize) {
        Some(request) => *request,
        None => Request {
            program: 0,
            inputs: zeros(),
        },
    }
}

// All calls are judged, also where there are more processes than a listing takes.
pub fn are_callable(card: Card, calls: [Request; 8]) -> bool
    ensures { result ≡ is_callable card calls }
{
    for k in 0..card.process_count {
        if !is_below(request_at(calls, k).program, card.program_count, 8) {
            return false;
        }
    }
    true
}

// At most 3 processes and 16 steps, and a step limit that allows these.
pub fn is_listable(card: Card, length: u32) -> bool
    ensures { result ≡ is_listable card length }
{
    card.process_count <= 3 && length <= 16 && length as u64 <= card.limit
}
