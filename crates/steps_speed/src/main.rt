// Speed of call and step: card K's program with eight processes, each called again as soon as its operation returned, under a schedule
// of pseudo-random numbers. Standard input holds how many steps are made; the shared cells are printed at the end.
// tests/speed/run.sh times it against tests/speed/steps/steps.rs, which ends with the same cells.
// The card stands in one variable, the last request's result, so that nothing but the requests copies it.
#![tactic(auto)]

ghost use Rattle.std.specs.Prelude.{◌≡◌};
ghost use Rattle.steps_speed.specs.Runs.{seed, inputs_of, called_from, run_from, opened};

use answers::kinds::is_run;
use construction::answers::{Answer, Answered};
use construction::card::Card;
use construction::cells::Words;
use grammar::Found;
use grammar::reading::number_at;
use host::read_input;
use xorshift::next;

// The inputs of a call.
fn inputs(input: u32) -> Words
    ensures { result ≡ inputs_of input }
{
    Words {
        w0: input,
        w1: 0,
        w2: 0,
        w3: 0,
    }
}

// The first call of every process, with its own number as input. A process that was not called yet is refused a step: it is asked here so that
// step has two callers, and is compiled as one function as in a larger program.
fn call_all(card: Card) -> Answered
    ensures { result ≡ called_from 8 0 (opened card) }
{
    let mut answered = Answered {
        card,
        answer: Answer::Taken,
    };
    for process in 0..8 {
        answered = card::step(answered.card, process);
        answered = card::call(answered.card, process, 0, inputs(process));
    }
    answered
}

// So many steps, each with the next call of its process where the operation returned. The input of a call is the number of the step before it.
fn run(start: Answered, count: u64) -> Answered
    ensures { result ≡ run_from count 0 seed start }
{
    let mut answered = start;
    let mut random: u64 = 88_172_645_463_325_252;
    for k in 0..count {
        random = next(random);
        let process = (random % 8) as u32;
        answered = card::step(answered.card, process);
        let answer = answered.answer;
        if !is_run(answer) {
            answered = card::call(
                answered.card,
                process,
                0,
                inputs((k % 4_294_967_296) as u32),
            );
        }
    }
    answered
}

fn main(rt: HostRuntime) {
    let mut text = [0u8; 32];
    read_input(&rt, &mut text);
    let Some(Found { value, .. }) = number_at(&text, 0) else {
        return;
    };
    let opened = reader::open(
        b"card,8,1,1,1000000000000000000\nvar,7\nsheet,4\nins,1,0,0,0\nins,3,1,0,0\nins,4,0,0,0\nins,11,0,1,0\n",
    );
    let card = opened.card;
    let last = run(call_all(card), value);
    let after = last.card;
    report::show_cells(&rt, after, 0);
}
