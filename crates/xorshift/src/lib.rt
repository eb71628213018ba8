// Marsaglia's xorshift (document 02, order 12: schedules of a sweep): 64 bits, shifts 13, 7 and 17. A schedule is drawn into a lent buffer, a process a byte.
// It rests on nothing but std.
#![tactic(auto)]

ghost use Rattle.std.specs.Prelude.{◌≡◌};
ghost use Rattle.xorshift.specs.Xorshift.{next, remainder, Draws};

// The number that follows x.
pub fn next(x: u64) -> u64
    ensures { result ≡ next x }
{
    let a = x ^ (x << 13);
    let b = a ^ (a >> 7);
    b ^ (b << 17)
}

// x modulo p, 0 where p is 0. A remainder by a constant 8 needs no division.
fn remainder(x: u64, p: u8) -> u8
    ensures { result ≡ remainder x p }
{
    if p == 8 {
        return (x % 8) as u8;
    }
    if p == 0 {
        return 0;
    }
    (x % (p as u64)) as u8
}

// The whole buffer becomes the processes, of p, that are drawn after x; the answer is the last number drawn.
pub fn draw(buffer: &mut [u8], x: u64, p: u8) -> u64
    ensures { Draws buffer.old x p result buffer.new }
{
    let mut x = x;
    for process in buffer.iter_mut() {
        x = next(x);
        *process = remainder(x, p);
    }
    x
}
