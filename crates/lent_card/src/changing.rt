// A program changed while the machine runs (document 02, order 11).
ghost use Rattle.std.specs.Prelude.{◌≡◌, ◌&&◌, ltb, IfOk, IsOk};
ghost use Rattle.construction.specs.Changes.{is_behind};
ghost use Rattle.construction.specs.Readings.{verdict_of};
ghost use Rattle.requests.specs.Judging.{answer_of_change, change_judged};
ghost use Rattle.block.specs.Layout.{process_count_in, program_count_in, gate_in, control_in, last_gate_in, from_in};
ghost use Rattle.lent_card.specs.Requests.{behind_in, change_answer, put_change, change_block};

use crate::narrow::narrow;
use block::cells::{gate, process_count, program_count, room, variable_count};
use block::own::{control, last_gate};
use block::texts::put_from;
use construction::answers::Answer;
use construction::programs::Program;
use construction::texts::RefusedAt;
use reader::Read;
use reader::changes::read_change;
use requests::behind::is_behind;
use requests::judging::judge_change;
use texts::{Text, keep_later, put_program};

// Whether the operation of some process is behind a gate number.
// Not `some_behind` of requests, which takes two arrays: they would be copied out of the block for a card in lent words.
#[tactic(auto, unfolding(crate::specs::Requests::behind_in))]
fn some_behind(b: &[u64], number: u64) -> bool
    ensures { result ≡ behind_in b.now number 8 }
{
    let mut behind = false;
    for i in 0..8u8 {
        if i < process_count(b) && is_behind(control(b, i).place, last_gate(b, i), number) {
            behind = true;
        }
    }
    behind
}

// Whether a change is taken, by what was read of its text.
fn judge_change_in(
    b: &[u64],
    program: u32,
    from: u64,
    read: &Result<Read<Program>, RefusedAt>,
) -> Result<(), RefusedAt>
    ensures judged { answer_of_change result ≡ change_judged program (program_count_in b.now) (verdict_of read.now) (gate_in b.now).seq from (from_in b.now program) (behind_in b.now (from_in b.now program) 8) }
    ensures taken { IfOk result (λ y. IsOk read.now) }
{
    let last = block::texts::from(b, narrow(program));
    judge_change(
        program,
        program_count(b),
        read,
        gate(b).seq,
        from,
        last,
        some_behind(b, last),
    )
}

// A change that is taken.
fn put_change(b: &mut [u64], k: u8, from: u64, y: Program)
    ensures { b.new ≡ put_change b.old k from y }
{
    keep_later(b, k);
    put_from(b, k, from);
    put_program(b, Text::Later, k, y);
}

// Change: refusals 6; 1, 2, 3, 4, 12, 13 and 14 of the text, with its line; 15 and 16.
pub fn change(b: &mut [u64], program: u32, from: u64, text: &[u8]) -> Answer
    ensures { (result ≡ change_answer b.old program from text.now) × (b.new ≡ change_block b.old program from text.now) }
{
    let read = read_change(variable_count(b), room(b), text);
    let judged = judge_change_in(b, program, from, &read);
    match judged.and(read) {
        Ok(changed) => {
            put_change(b, narrow(program), from, changed.value);
            Answer::Taken
        }
        Err(RefusedAt { refusal, line }) => Answer::RefusedAt { refusal, line },
    }
}
