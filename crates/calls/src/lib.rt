// One call for each process (document 02, orders 12 and 13): the table of them, five words for each process, and the text that gives it,
// `call,i,SHEET,I0,I1,I2,I3` on line i + 1. It rests on the crates grammar, construction, answers, commands (the lines) and executions (what a call asks for).
#![tactic(auto)]

pub mod reading; // reading.rt: the table of a text

ghost use Rattle.std.specs.Prelude.{◌≡◌, get_or};
ghost use Rattle.calls.specs.Tables.{has_request, request_in, requests_in};

use construction::cells::Words;
use executions::Request;

// The first line that is wrong in a text, by its number, and the table of those before it.
#[derive(Clone, Copy)]
pub struct WrongLine {
    pub line: u64,
    pub words: [u32; 40],
}

// A word of a table, 0 past its end.
fn word_at(calls: &[u32], at: usize) -> u32
    ensures { result ≡ get_or calls.now at 0 }
{
    if at < calls.len() { calls[at] } else { 0 }
}

// Whether all five words of process i stand in a table.
pub fn has_request(calls: &[u32], i: u8) -> bool
    ensures { result ≡ has_request calls.now i }
{
    i as usize * 5 + 4 < calls.len()
}

// The call of process i.
pub fn request_in(calls: &[u32], i: u8) -> Request
    ensures { result ≡ request_in calls.now i }
{
    let at = i as usize * 5;
    let inputs = Words {
        w0: word_at(calls, at + 1),
        w1: word_at(calls, at + 2),
        w2: word_at(calls, at + 3),
        w3: word_at(calls, at + 4),
    };
    Request {
        program: word_at(calls, at),
        inputs,
    }
}

// The calls of the first eight processes, one by one.
pub fn requests_in(calls: &[u32]) -> [Request; 8]
    ensures { result ≡ requests_in calls.now }
{
    [
        request_in(calls, 0),
        request_in(calls, 1),
        request_in(calls, 2),
        request_in(calls, 3),
        request_in(calls, 4),
        request_in(calls, 5),
        request_in(calls, 6),
        request_in(calls, 7),
    ]
}
