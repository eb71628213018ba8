// The reader of a value change dump (document 02, order 7): one pass over the bytes, for any step that is asked for, or with the values of every time
// in decimal. It rests on the crates grammar (decimals and words at a place), construction (verdicts) and dump (the definitions). Every public function is
// total, and its contract gives its whole result.
#![tactic(auto)]

mod binary; // binary.rt: binary numbers at a place
pub mod header; // header.rt: the header and `#0`
pub mod lines; // lines.rt: one line after the header
pub mod rows; // rows.rt: the values in decimal, a line for each time
mod taking; // taking.rt: whether a line may follow, and what is left once it is taken

ghost use Rattle.std.specs.Prelude.{◌≡◌, ◌≤◌, length};
ghost use Rattle.dump.specs.Reading.{no_values, progress_refused, begun as begun_as, starts_from, lines_from, readings};

use crate::header::read_header;
use crate::lines::line_at;
use crate::taking::{next_after, past, put_value, show_value, starts, takes, time_after};
use construction::answers::Refusal;
use construction::texts::RefusedAt;
use dump::{Header, Progress, Readings};

// A dump that is gone through: the place of the next line, the time, and the values so far.
#[derive(Clone, Copy)]
pub struct Scan {
    pub at: usize,
    pub time: u64,
    pub values: [u32; 64],
}

// What was put of its rows into a buffer: the length, and the scan after it.
#[derive(Clone, Copy)]
pub struct Shown {
    pub scan: Scan,
    pub length: usize,
}

fn progress_refused(line: u64) -> Progress
    ensures { result ≡ progress_refused line }
{
    let values = [0u32; 64];
    let shown = [0u32; 64];
    Progress {
        verdict: Err(RefusedAt {
            refusal: Refusal::Malformed,
            line,
        }),
        at: 0,
        line,
        time: 0,
        next: 0,
        values,
        shown,
    }
}

// After `#0`, or refused with the header.
fn begun(header: Header) -> Progress
    ensures { result ≡ begun_as header }
{
    let values = [0u32; 64];
    let shown = [0u32; 64];
    Progress {
        verdict: header.verdict,
        at: header.at,
        line: header.line,
        time: 0,
        next: 0,
        values,
        shown,
    }
}

// The values at time 0, as many as there are variables.
fn read_starts(text: &[u8], count: u8, step: u64, start: Progress) -> Progress
    requires { (count ≤ 64) × (start.line ≤ 200) × (start.next ≡ 0) × (start.verdict ≡ Ok tt) }
    ensures { result ≡ starts_from step text.now count start }
{
    let time = start.time;
    let mut values = start.values;
    let mut shown = start.shown;
    let mut at = start.at;
    let mut number = start.line;
    for next in 0..count {
        let line = line_at(text, at);
        if !starts(next, line) {
            return progress_refused(number);
        }
        put_value(&mut values, line);
        show_value(&mut shown, time, step, line);
        at = past(line);
        number += 1;
    }
    Progress {
        verdict: Ok(()),
        at,
        line: number,
        time,
        next: count,
        values,
        shown,
    }
}

// The lines that are left.
fn read_lines(text: &[u8], count: u8, step: u64, start: Progress) -> Progress
    requires { (count ≤ 64) × (start.line ≤ start.at) × (start.verdict ≡ Ok tt) }
    ensures { result ≡ lines_from step text.now count (length text.now) start }
{
    let mut values = start.values;
    let mut shown = start.shown;
    let mut at = start.at;
    let mut number = start.line;
    let mut time = start.time;
    let mut next = start.next;
    // The place moves by what a line turns out to be, which no range or iterator gives.
    while at < text.len() {
        let line = line_at(text, at);
        if !takes(count, time, next, &values, line) {
            return progress_refused(number);
        }
        put_value(&mut values, line);
        show_value(&mut shown, time, step, line);
        at = past(line);
        number += 1;
        time = time_after(time, line);
        next = next_after(line);
    }
    Progress {
        verdict: Ok(()),
        at,
        line: number,
        time,
        next,
        values,
        shown,
    }
}

fn refused_readings(refused: RefusedAt) -> Readings
    ensures { result ≡ record { verdict = Err refused; count = 0; last = 0; values = no_values } }
{
    let values = [0u32; 64];
    Readings {
        verdict: Err(refused),
        count: 0,
        last: 0,
        values,
    }
}

// The number of variables, the last time and the values after a step; or the refusal with its line.
pub fn read(text: &[u8], step: u64) -> Readings
    ensures { result ≡ readings text.now step }
{
    let header = read_header(text);
    if let Err(refused) = header.verdict {
        return refused_readings(refused);
    }
    let count = header.count;
    let first = begun(header);
    let started = read_starts(text, count, step, first);
    if let Err(refused) = started.verdict {
        return refused_readings(refused);
    }
    let whole = read_lines(text, count, step, started);
    if let Err(refused) = whole.verdict {
        return refused_readings(refused);
    }
    let values = whole.shown;
    Readings {
        verdict: whole.verdict,
        count,
        last: whole.time,
        values,
    }
}
