// Where the words of a machine begin and end.
ghost use Rattle.std.specs.Prelude.{◌≡◌, ◌+◌, ◌*◌, ◌<◌, ◌≤◌, min, MatchOption};

use allowance::Allowance;

// The words of a block.
pub(crate) const BLOCK: u32 = 1456;

// The place where the part of machine m begins, in so many words; their end where it is past that.
fn start_of(size: u32, m: u32, length: usize) -> usize
    ensures { result ≡ min (size * m) length }
{
    let at = (size as usize) * (m as usize);
    if at < length { at } else { length }
}

// The place past a part that begins at a place.
fn end_of(size: u32, start: usize, length: usize) -> usize
    requires { start ≤ length }
    ensures { result ≡ min (start + size) length }
{
    let wide = size as usize;
    if length - start < wide {
        length
    } else {
        start + wide
    }
}

// The words of a machine, from one place to another.
#[derive(Clone, Copy)]
pub(crate) struct Part {
    pub start: usize,
    pub end: usize,
}

// The part of machine m, in so many words.
pub(crate) fn part_of(size: u32, m: u32, length: usize) -> Part
    ensures start { result.start ≡ min (size * m) length }
    ensures end { result.end ≡ min (result.start + size) length }
{
    let start = start_of(size, m, length);
    Part {
        start,
        end: end_of(size, start, length),
    }
}

// The block of machine m, if the machine is there.
pub(crate) fn block_of(a: Allowance, m: u32, length: usize) -> Option<Part>
    ensures { MatchOption result (a.count ≤ m) (λ p. (m < a.count) × (p.start ≡ min (1456 * m) length) × (p.end ≡ min (p.start + 1456) length)) }
{
    if a.count <= m as u64 {
        None
    } else {
        Some(part_of(BLOCK, m, length))
    }
}
