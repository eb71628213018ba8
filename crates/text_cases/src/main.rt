// Card texts opened and written back. Standard input holds the cases, each a decimal length, byte 10 and so many bytes of text; a line is
// printed for each: its verdict, and what the writer does in a buffer of eight bytes more than the text, of its length, of one byte less and
// of none, compared with the text. Before them, as number 0, the first text is compared with itself from its second byte on, which must differ.
// tests/text/make_cases.py makes the cases and, by a judge of its own, the lines that are expected.
// What is computed and compared equals its definition in specs/; what only prints gives nothing back.
#![tactic(auto)]

mod cases; // cases.rt: the texts of the input
mod comparing; // comparing.rt: what the writer does in a buffer, and whether the buffer then holds what it must
mod case_lines; // case_lines.rt: the line of a case

use crate::case_lines::put_case;
use crate::cases::case_at;
use construction::answers::Refusal;
use host::{read_input, show};

// Where a text stands in the input.
#[derive(Clone, Copy)]
struct Case {
    start: usize,
    end: usize,
}

// What the writer answered, and whether its buffer then holds the text that is wanted.
#[derive(Clone, Copy)]
struct Outcome {
    written: Result<usize, Refusal>,
    same: bool,
}

// The same for a buffer of eight bytes more than the text, of its length, of one byte less and of none.
#[derive(Clone, Copy)]
struct Outcomes {
    more: Outcome,
    exact: Outcome,
    short: Outcome,
    none: Outcome,
}

fn show_case(rt: &impl Print, number: u64, text: &[u8], wanted: &[u8]) {
    let mut line = [0u8; 200];
    let length = put_case(&mut line, number, text, wanted);
    if length <= 200 {
        show(rt, &line[..length]);
    }
}

// A case that must differ: the first text is compared with itself from its second byte on.
fn show_other(rt: &impl Print, input: &[u8]) {
    let Some(Case { start, end }) = case_at(input, 0) else {
        return;
    };
    if start < end && end <= input.len() {
        let second = start + 1;
        show_case(rt, 0, &input[start..end], &input[second..end]);
    }
}

fn show_cases(rt: &impl Print, input: &[u8]) {
    let mut at: usize = 0;
    for number in 1..1001 {
        let Some(Case { start, end }) = case_at(input, at) else {
            return;
        };
        if start <= end && end <= input.len() {
            let text = &input[start..end];
            show_case(rt, number, text, text);
        }
        at = end;
    }
}

fn show_all(rt: &impl Print, input: &[u8]) {
    show_other(rt, input);
    show_cases(rt, input);
}

fn main(rt: HostRuntime) {
    let mut input = [0u8; 131072];
    let length = read_input(&rt, &mut input);
    show_all(&rt, &input[..length]);
}
