// What a read shows (document 01: look), by the gate, the announcement of its holder and the record of the variable.
ghost use Rattle.std.specs.Prelude.{◌≡◌};
ghost use Rattle.construction.specs.Requests.{pending, unfinished, shown};

use construction::cells::{Announcement, Gate, Record};

// Whether the gate has a holder, whose announcement this is and is not done.
fn is_pending(holder: Option<u8>, announcement: Announcement) -> bool
    ensures { result ≡ pending holder announcement }
{
    holder.is_some() && !cells::is_done(announcement.flag)
}

// Whether a record was written under the number of a gate whose operation is pending.
fn is_unfinished(gate: Gate, announcement: Announcement, cell: Record) -> bool
    ensures { result ≡ unfinished gate announcement cell }
{
    is_pending(gate.holder, announcement) && cell.seq == gate.seq
}

// val[1 - toggle] of a record of an unfinished write, val[toggle] of any other.
pub fn value_of(gate: Gate, announcement: Announcement, cell: Record) -> u32
    ensures { result ≡ shown gate announcement cell }
{
    if is_unfinished(gate, announcement, cell) {
        cells::previous(cell)
    } else {
        cells::current(cell)
    }
}
