// The card of document 01 as code: call, exit request (wish), step and read (look), for every value of a card. With the traced step (crate tracing)
// and the change (crate changing) these alone take and give a card: each takes the pieces that it needs out of it, has functions on small values judge
// them and work on them, and puts back what changed. It rests on the crates construction (types and definitions), answers, helping, machine, opening and requests.
#![tactic(auto)]

ghost use Rattle.std.specs.Prelude.{◌≡◌};
ghost use Rattle.construction.specs.Requests.{refused, call, request_exit, step, read};

use construction::accesses::{Access, Control, Label};
use construction::answers::{Answer, Answered, Refusal};
use construction::card::{Card, Operation};
use construction::cells::Words;
use helping::{begin_help, note, writing};
use machine::announcement::{access_announcement, whose};
use machine::gate::access_gate;
use machine::places::{access_of, holder_of};
use machine::record::write;
use requests::judging::{answer_of, is_below, judge_call, judge_exit, judge_step};
use requests::lookups::{announcement_at, program_at, record_at};
use requests::reading::value_of;

// A request that is refused leaves the card as it was.
fn refused(card: Card, refusal: Refusal) -> Answered
    ensures { result ≡ refused card refusal }
{
    Answered {
        card,
        answer: Answer::Refused(refusal),
    }
}

// Call: refusals 5, 6 and 7.
pub fn call(card: Card, process: u32, program: u32, inputs: Words) -> Answered
    ensures { result ≡ call card process program inputs }
{
    let mut c = card;
    let i = (process % 8) as usize;
    let place = c.controls[i].place;
    if let Err(refusal) = judge_call(process, c.process_count, program, c.program_count, place) {
        return refused(c, refusal);
    }
    c.controls[i] = Control {
        place: Label::P1,
        target: 0,
    };
    c.operations[i] = Operation {
        program: program as u8,
        inputs,
    };
    c.exits[i] = false;
    c.counts[i] = 0;
    Answered {
        card: c,
        answer: Answer::Taken,
    }
}

// Exit request (document 01: wish): refusals 5 and 8.
pub fn request_exit(card: Card, process: u32) -> Answered
    ensures { result ≡ request_exit card process }
{
    let mut c = card;
    let i = (process % 8) as usize;
    if let Err(refusal) = judge_exit(process, c.process_count, c.controls[i].place) {
        return refused(c, refusal);
    }
    c.exits[i] = true;
    Answered {
        card: c,
        answer: Answer::Taken,
    }
}

// Step: refusals 5, 8 and 10, or one shared access. One dictionary is taken out, updated and put back by the steps that help (document 01,
// 'Which form to use where').
pub fn step(card: Card, process: u32) -> Answered
    ensures { result ≡ step card process }
{
    let mut c = card;
    let id = (process % 8) as u8;
    let i = id as usize;
    let control = c.controls[i];
    let place = control.place;
    if let Err(refusal) = judge_step(process, c.process_count, place, c.steps, c.limit) {
        return refused(c, refusal);
    }
    let gate = c.gates_read[i];
    let last = c.announcements_read[i];
    let steps = std::num::wrapping_add_u64(c.counts[i], 1);
    c.steps = std::num::wrapping_add_u64(c.steps, 1);
    c.counts[i] = steps;
    let access = access_of(place, c.exits[i]);
    let answer = match access {
        Access::None => answer_of(control, last, steps),
        Access::Gate(access) => {
            let after = access_gate(access, id, c.gate, gate, control);
            let stored = after.cell;
            let read = after.read;
            let control = after.control;
            c.gate = stored;
            c.gates_read[i] = read;
            c.controls[i] = control;
            answer_of(control, last, steps)
        }
        Access::Announcement(access) => {
            let m = whose(access, c.process_count, id, gate);
            let at = (m % 8) as usize;
            let simulation = c.simulations[i];
            let after = access_announcement(
                access,
                m,
                announcement_at(m, c.announcements[at]),
                c.operations[i],
                gate,
                last,
                simulation.yields,
                control,
            );
            let stored = after.cell;
            let read = after.read;
            let control = after.control;
            c.announcements_read[i] = read;
            c.controls[i] = control;
            let answer = answer_of(control, read, steps);
            if m < 8 {
                c.announcements[at] = stored;
            }
            answer
        }
        Access::Help => {
            let holder = gate.holder;
            let m = holder_of(holder);
            let cell = announcement_at(m, c.announcements[(m % 8) as usize]);
            let k = cell.program;
            let at = (k % 8) as usize;
            let stored = if gate.seq < c.from[at] {
                c.earlier[at]
            } else {
                c.later[at]
            };
            let began = begin_help(
                c.variable_count,
                program_at(k, stored),
                cell,
                gate.seq,
                control,
            );
            c.announcements_read[i] = cell;
            match began {
                Ok(begun) => {
                    c.simulations[i] = begun.simulation;
                    c.dictionaries[i] = opening::empty();
                    c.masks[i] = 0;
                    c.controls[i] = begun.control;
                    answer_of(begun.control, cell, steps)
                }
                Err(passed) => {
                    c.controls[i] = passed;
                    answer_of(passed, cell, steps)
                }
            }
        }
        Access::Note => {
            let v = control.target;
            let k = last.program;
            let at = (k % 8) as usize;
            let held = if gate.seq < c.from[at] {
                c.earlier[at]
            } else {
                c.later[at]
            };
            let helped = note(
                c.variable_count,
                program_at(k, held),
                last.words,
                record_at(v, c.records[(v % 64) as usize]),
                gate.seq,
                control,
                c.simulations[i],
                c.dictionaries[i],
                c.masks[i],
            );
            let state = helped.simulation;
            let noted = helped.dictionary;
            let control = helped.control;
            c.simulations[i] = state;
            c.dictionaries[i] = noted;
            c.masks[i] = helped.mask;
            c.controls[i] = control;
            answer_of(control, last, steps)
        }
        Access::Write => {
            let written = writing(gate.seq, control, c.dictionaries[i]);
            let item = written.item;
            let control = written.control;
            let v = item.variable;
            let at = (v % 64) as usize;
            let swapped = write(record_at(v, c.records[at]), item, gate.seq);
            let stored = swapped.cell;
            c.controls[i] = control;
            let answer = answer_of(control, last, steps);
            if v < 64 {
                c.records[at] = stored;
            }
            answer
        }
    };
    Answered { card: c, answer }
}

// Read (document 01: look): refusal 9.
pub fn read(card: Card, variable: u32) -> Answered
    ensures { result ≡ read card variable }
{
    if !is_below(variable, card.variable_count, 64) {
        return refused(card, Refusal::NoPlace);
    }
    let gate = card.gate;
    let holder = gate.holder;
    let m = holder_of(holder);
    let found = card.announcements[(m % 8) as usize];
    let cell = card.records[variable as usize];
    let value = value_of(gate, announcement_at(m, found), cell);
    Answered {
        card,
        answer: Answer::Value(value),
    }
}
