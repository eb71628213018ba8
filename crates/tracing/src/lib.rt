// The line behind each step (document 02, order 1): a step of the card with its report. It rests on the crates construction (types and
// definitions), card, helping, machine, reports and requests.
#![tactic(auto)]

ghost use Rattle.std.specs.Prelude.{◌≡◌};
ghost use Rattle.construction.specs.Tracing.{trace};

use construction::answers::Traced;
use construction::card::Card;
use helping::writing;
use machine::places::access_of;
use reports::{announcement_in, cell_of, label_of, record_in, swap_of, told};
use requests::lookups::{announcement_at, record_at};

// Step with its report (document 02, order 1): the step itself is `step`; what is told of its access is read off what it goes by and
// off what it leaves.
pub fn trace(card: Card, process: u32) -> Traced
    ensures { result ≡ trace card process }
{
    let id = (process % 8) as u8;
    let i = id as usize;
    let control = card.controls[i];
    let gate = card.gates_read[i];
    let last = card.announcements_read[i];
    let operation = card.operations[i];
    let simulation = card.simulations[i];
    let dictionary = card.dictionaries[i];
    let exit = card.exits[i];
    let place = control.place;
    let yields = simulation.yields;
    let label = label_of(place, exit);
    let access = access_of(place, exit);
    let written = writing(gate.seq, control, dictionary);
    let item = written.item;
    let cell = cell_of(
        access,
        card.process_count,
        id,
        gate,
        control.target,
        item.variable,
    );
    let m = announcement_in(cell);
    let v = record_in(cell);
    let held = card.gate;
    let announcement = card.announcements[(m % 8) as usize];
    let record = card.records[(v % 64) as usize];
    let announced = announcement_at(m, announcement);
    let recorded = record_at(v, record);
    let swap = swap_of(
        access, id, m, held, announced, recorded, gate, last, operation, yields, control, item,
    );
    let answered = card::step(card, process);
    let answer = answered.answer;
    let after = answered.card;
    let read = after.gates_read[i];
    let report = told(answer, label, cell, swap, read.seq, after.masks[i]);
    Traced {
        card: after,
        answer,
        report,
    }
}
