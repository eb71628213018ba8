// Other words in the loan, and the words past them.
ghost use Rattle.std.specs.Prelude.{◌≡◌, drop};
ghost use Rattle.lent_session.specs.Altering.{altered_loan, last_drawn, kept};

use xorshift::next;

// A word that is not drawn, so that a stray store shows.
pub(crate) const PATTERN: u64 = 6_510_615_555_426_900_570;

// The first words become the numbers that follow x; the answer is the last of them. 0 alters nothing.
pub(crate) fn alter(l: &mut [u64], words: usize, x: u64) -> u64
    ensures { (l.new ≡ altered_loan l.old words x) × (result ≡ last_drawn l.old words x) }
{
    let mut drawn = x;
    if x != 0 {
        for k in 0..words.min(l.len()) {
            drawn = next(drawn);
            l[k] = drawn;
        }
    }
    drawn
}

// Whether every word from a place on is the pattern.
pub(crate) fn is_kept(l: &[u64], start: usize) -> bool
    ensures { result ≡ kept (drop start l.now) }
{
    for k in start..l.len() {
        if l[k] != PATTERN {
            return false;
        }
    }
    true
}
