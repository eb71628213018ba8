// The steps in pieces, so that a program can tell how far it is between them.
ghost use Rattle.std.specs.Prelude.{◌≡◌, length};
ghost use Rattle.sweeping.specs.Pieces.{begun, added, left_after, Runs, Advances};

use crate::Progress;
use block::cells::process_count;
use lent_sweep::Counts;
use lent_sweep::counting::none;
use lent_sweep::running::run;
use xorshift::draw;

// A sweep before its first step.
pub fn begin(steps: u64, seed: u64) -> Progress
    ensures { result ≡ begun steps seed }
{
    Progress {
        x: seed,
        left: steps,
        counts: none(),
    }
}

// What two runs come to; a count stops at the largest number.
pub fn added(c: Counts, d: Counts) -> Counts
    ensures { result ≡ added c d }
{
    Counts {
        accepted: c.accepted.saturating_add(d.accepted),
        done: c.done.saturating_add(d.done),
        faulted: c.faulted.saturating_add(d.faulted),
        exited: c.exited.saturating_add(d.exited),
        longest: c.longest.max(d.longest),
    }
}

// The steps that are left after a piece: none where one was refused, as the limit is reached then.
fn left_after(left: u64, size: u64, accepted: u64) -> u64
    ensures { result ≡ left_after left size accepted }
{
    if accepted == size {
        left.saturating_sub(size)
    } else {
        0
    }
}

// A schedule drawn into a buffer, and run: the number drawn last, and what was counted.
#[derive(Clone, Copy)]
struct Piece {
    x: u64,
    counts: Counts,
}

fn run_drawn(b: &mut [u64], l: &mut [u64], calls: &[u32], schedule: &mut [u8], x: u64) -> Piece
    ensures { Runs calls.now b.old l.old (length schedule.old) x result b.new l.new schedule.new }
{
    let x = draw(schedule, x, process_count(b));
    let counts = run(b, l, calls, schedule);
    Piece { x, counts }
}

// The next piece: at most 4,096 steps, and no more than are left.
pub fn advance(b: &mut [u64], l: &mut [u64], calls: &[u32], q: Progress) -> Progress
    ensures { Advances calls.now b.old l.old q result b.new l.new }
{
    let mut schedule = [0u8; 4096];
    let size = q.left.min(4096);
    let piece = run_drawn(b, l, calls, &mut schedule[..size as usize], q.x);
    Progress {
        x: piece.x,
        left: left_after(q.left, size, piece.counts.accepted),
        counts: added(q.counts, piece.counts),
    }
}
