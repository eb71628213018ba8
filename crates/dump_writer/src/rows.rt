// What a read shows of every variable of a card.
ghost use Rattle.std.specs.Prelude.{◌≡◌, replicate};
ghost use Rattle.dump.specs.Histories.{row_of};
ghost use Rattle.dump_writer.specs.Courses.{shown_from};

use construction::card::Card;
use construction::cells::{Announcement, Gate, Record};
use machine::places::holder_of;
use requests::lookups::announcement_at;
use requests::reading::value_of;

// By the gate, the announcement of its holder and the records.
fn values(gate: Gate, announcement: Announcement, records: [Record; 64], count: u8) -> [u32; 64]
    ensures { result ≡ shown_from gate announcement records count 0 (replicate 64 0) }
{
    let mut row = [0u32; 64];
    for v in 0..64u8.min(count) as usize {
        row[v] = value_of(gate, announcement, records[v]);
    }
    row
}

pub fn row_of(card: Card) -> [u32; 64]
    ensures { result ≡ row_of card }
{
    let gate = card.gate;
    let holder = gate.holder;
    let m = holder_of(holder);
    let found = card.announcements[(m % 8) as usize];
    let records = card.records;
    values(
        gate,
        announcement_at(m, found),
        records,
        card.variable_count,
    )
}
