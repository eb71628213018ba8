// The files judged: the card, the length of the calls, their lines; then every process is called.
ghost use Rattle.std.specs.Prelude.{◌≡◌};
ghost use Rattle.sweeping.specs.Starting.{over, Calls, Starts};

use crate::Started;
use answers::kinds::is_refused;
use block::cells::process_count;
use calls::reading::{put_line_refusal, read_calls};
use calls::request_in;
use commands::Command;
use commands::printing::{put_calls_refusal, put_card_refusal, put_line};
use lent_card::requesting::call;
use reports::no_report;

// The most bytes of calls that are read.
const LIMIT: usize = 65_536;

// No sweep: a line is printed.
fn over(length: usize) -> Started
    ensures { result ≡ over length }
{
    Started {
        length,
        table: [0; 40],
    }
}

// Calls every process; the line of the first call that is refused is printed, and no process after it is called.
fn call_all(b: &mut [u64], calls: &[u32], buffer: &mut [u8]) -> usize
    ensures { Calls calls.now b.old buffer.old result b.new buffer.new }
{
    let count = process_count(b);
    for i in 0..count {
        let request = request_in(calls, i);
        let answer = call(b, i as u32, request.program, request.inputs);
        if is_refused(answer) {
            let command = Command::Call {
                process: i as u32,
                program: request.program,
                inputs: request.inputs,
            };
            return put_line(buffer, 0, 0, command, no_report(), answer);
        }
    }
    0
}

// The card of a text opened into the block, and every process called; or the line of what is refused, put into the buffer.
pub fn start(card: &[u8], calls: &[u8], b: &mut [u64], buffer: &mut [u8]) -> Started
    ensures { Starts card.now calls.now b.old buffer.old result b.new buffer.new }
{
    let verdict = lent_text::open(card, b);
    if let Err(refused) = verdict {
        return over(put_card_refusal(buffer, refused));
    }
    if LIMIT < calls.len() {
        return over(put_calls_refusal(buffer));
    }
    let table = match read_calls(calls, process_count(b)) {
        Ok(table) => table,
        Err(wrong) => return over(put_line_refusal(buffer, wrong.line)),
    };
    let length = call_all(b, &table, buffer);
    Started { length, table }
}
