// The starting values, and the numbers from which the later texts of the programs hold.
ghost use Rattle.std.specs.Prelude.{◌≡◌, ltb};
ghost use Rattle.block.specs.Layout.{start_in, put_start, from_in, put_from};

use crate::numbers::{number, put_number};
use codes::half;

// The starting value of variable v.
pub fn start(b: &[u64], v: u8) -> u32
    ensures { result ≡ start_in b.now v }
{
    half(number(b, 592, 64, v))
}

pub fn put_start(b: &mut [u64], v: u8, value: u32)
    ensures { b.new ≡ put_start b.old v value }
{
    put_number(b, 592, 64, v, value as u64);
}

// The number from which the later text of program k holds.
pub fn from(b: &[u64], k: u8) -> u64
    ensures { result ≡ from_in b.now k }
{
    number(b, 920, 8, k)
}

pub fn put_from(b: &mut [u64], k: u8, value: u64)
    ensures { b.new ≡ put_from b.old k value }
{
    put_number(b, 920, 8, k, value);
}

// Whether an operation with this gate number runs the earlier text of program k.
pub fn is_earlier(b: &[u64], k: u8, number: u64) -> bool
    ensures { result ≡ ltb number (from_in b.now k) }
{
    number < from(b, k)
}
