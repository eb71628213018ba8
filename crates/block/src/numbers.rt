// Whether a part is there, and parts of one word.
ghost use Rattle.std.specs.Prelude.{◌≡◌};
ghost use Rattle.block.specs.Layout.{is_room, number_at, put_number};

use crate::parts::{put_row, row_at};

// How many words a block has.
const SIZE: usize = 1456;

// Whether there is a part i of n.
pub fn is_room(b: &[u64], i: u8, n: u8) -> bool
    ensures { result ≡ is_room b.now i n }
{
    SIZE <= b.len() && i < n
}

// Number i of n, from word `base` on: a part of one word. specs/Layout has definitions of their own for these (number_at, put_number).
pub(crate) fn number(b: &[u64], base: usize, n: u8, i: u8) -> u64
    ensures { result ≡ number_at b.now base n i }
{
    row_at(b, base, n, i, 0)
}

pub(crate) fn put_number(b: &mut [u64], base: usize, n: u8, i: u8, value: u64)
    ensures { b.new ≡ put_number b.old base n i value }
{
    put_row(b, base, n, i, value);
}
