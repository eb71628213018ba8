// What a place of a card's arrays holds, given what stands at the place modulo the array's room: the opening value where the place is past it.
ghost use Rattle.std.specs.Prelude.{◌≡◌, cond, ltb};
ghost use Rattle.construction.specs.Cells.{open_announcement, open_record};
ghost use Rattle.construction.specs.Instructions.{no_program};

use construction::cells::{Announcement, Record};
use construction::programs::Program;

pub fn announcement_at(m: u8, found: Announcement) -> Announcement
    ensures { result ≡ cond (ltb m 8) found open_announcement }
{
    if m < 8 {
        return found;
    }
    opening::open_announcement()
}

pub fn program_at(k: u8, found: Program) -> Program
    ensures { result ≡ cond (ltb k 8) found no_program }
{
    if k < 8 {
        return found;
    }
    opening::no_program()
}

pub fn record_at(v: u8, found: Record) -> Record
    ensures { result ≡ cond (ltb v 64) found (open_record 0) }
{
    if v < 64 {
        return found;
    }
    opening::open_record(0)
}
