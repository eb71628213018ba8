// Part i of n parts of a kind, taken out of a block and put back by value.
ghost use Rattle.std.specs.Prelude.{◌≡◌};
ghost use Rattle.block.specs.Layout.{row_at, put_row};

use crate::numbers::is_room;
use codes::parts::Part;

// Part i of n, from word `base` on, or `none` where there is no such part.
pub fn row_at<P: Part>(b: &[u64], base: usize, n: u8, i: u8, none: P) -> P
    ensures { result ≡ row_at b.now base P.SIZE n P.of none i }
{
    if is_room(b, i, n) {
        return P::read(b, base.saturating_add((i as usize).saturating_mul(P::SIZE)));
    }
    none
}

pub fn put_row<P: Part>(b: &mut [u64], base: usize, n: u8, i: u8, value: P)
    ensures { b.new ≡ put_row b.old base P.SIZE n i (P.words value) }
{
    if is_room(b, i, n) {
        value.store(b, base.saturating_add((i as usize).saturating_mul(P::SIZE)));
    }
}
