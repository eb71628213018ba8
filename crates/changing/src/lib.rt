// A program changed while the machine runs (document 02, order 11), for every value of a card: its text is read by the reader of card texts, functions
// on small values judge the change, and the text is put into the card if the change is taken. It rests on the crates construction (types and
// definitions), answers, opening, programs, reader and requests.
#![tactic(auto)]

ghost use Rattle.std.specs.Prelude.{◌≡◌, min};
ghost use Rattle.construction.specs.Weight.{heaviest as heaviestOf};
ghost use Rattle.construction.specs.Changes.{change};

use construction::answers::{Answer, Answered};
use construction::card::Card;
use construction::programs::Program;
use construction::texts::RefusedAt;
use programs::weights::heaviest;
use reader::changes::read_change;
use requests::behind::some_behind;
use requests::judging::judge_change;

// What the text of a change may weigh, by the programs that the card was opened with: 32, and no more than the heaviest of them.
fn most_weight(programs: [Program; 8]) -> u8
    ensures { result ≡ min 32 (heaviestOf programs) }
{
    let weight = heaviest(programs);
    if weight < 32 {
        return weight;
    }
    32
}

// Change: refusals 6; 1, 2, 3, 4, 12, 13 and 14 of the text, with its line; 15 and 16. One that is taken makes the later text the earlier one.
pub fn change(card: Card, program: u32, from: u64, text: &[u8]) -> Answered
    ensures { result ≡ change card program from text.now }
{
    let mut c = card;
    let at = (program % 8) as usize;
    let last = c.from[at];
    let read = read_change(c.variable_count, most_weight(c.programs), text);
    let behind = some_behind(c.controls, c.gates_read, c.process_count, last);
    let judged = judge_change(
        program,
        c.program_count,
        &read,
        c.gate.seq,
        from,
        last,
        behind,
    );
    let answer = match judged.and(read) {
        Ok(changed) => {
            c.earlier[at] = c.later[at];
            c.later[at] = changed.value;
            c.from[at] = from;
            Answer::Taken
        }
        Err(RefusedAt { refusal, line }) => Answer::RefusedAt { refusal, line },
    };
    Answered { card: c, answer }
}
