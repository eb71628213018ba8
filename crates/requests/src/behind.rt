// Whether an operation under way is behind a gate number (document 02, order 11: 'some operation under way last read a gate number below it'), by the
// places of the processes and the gates that they last read.
ghost use Rattle.std.specs.Prelude.{◌≡◌, ◌&&◌, ltb};
ghost use Rattle.construction.specs.Changes.{has_read, is_behind, some_behind};

use construction::accesses::{Control, Label};
use construction::cells::Gate;

// Whether an operation has read a gate number: it is past P1.
pub fn has_read(place: Label) -> bool
    ensures { result ≡ has_read place }
{
    !(place == Label::Idle || place == Label::P1)
}

// Whether the operation of a process that stands at this place and last read this gate is behind a number.
pub fn is_behind(place: Label, gate: Gate, number: u64) -> bool
    ensures { result ≡ is_behind place gate number }
{
    has_read(place) && gate.seq < number
}

// Whether the operation of some process is behind a number.
// That of lent_card reads a block, by a definition of its own (`behind_in`), without the two arrays: no heap, nothing copied out.
#[tactic(auto, unfolding(construction::specs::Changes::some_behind))]
pub fn some_behind(
    controls: [Control; 8],
    gates_read: [Gate; 8],
    process_count: u8,
    number: u64,
) -> bool
    ensures { result ≡ some_behind controls gates_read process_count number 8 }
{
    let mut behind = false;
    for i in 0..8u8 {
        let at = i as usize;
        if i < process_count && is_behind(controls[at].place, gates_read[at], number) {
            behind = true;
        }
    }
    behind
}
