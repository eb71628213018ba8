// A value in words of its own: read from a place of a slice on, and stored there. A word past the end reads as 0, and nothing is stored there.
ghost use Rattle.std.specs.Prelude.{◌≡◌, ℕ, ◌+◌, List, length, set};
ghost use Rattle.codes.specs.Parts.{word_at, part, stores};

// That a stored value is read back is no law here: it holds only of values that fit their words, which proofs/Values says of each type: no plainer.
pub trait Part: Copy {
    // How many words it has.
    const SIZE: usize;

    ghost SIZE: { ℕ };

    // The value of so many words, and the words of a value.
    ghost of: { List ℕ → Self };

    ghost words: { Self → List ℕ };

    fn read(b: &[u64], at: usize) -> Self
        ensures { result ≡ of (part b.now at SIZE) };

    fn store(self, b: &mut [u64], at: usize)
        ensures { b.new ≡ stores b.old at (words self) };

    // So that a value that is stored touches no other.
    ghost long: { (x : Self) → length (words x) ≡ SIZE };
}

// The first word of a part, and word k of it.
pub(crate) fn first(b: &[u64], at: usize) -> u64
    ensures { result ≡ word_at b.now at }
{
    if at < b.len() {
        return b[at];
    }
    0
}

pub(crate) fn word(b: &[u64], at: usize, k: usize) -> u64
    ensures { result ≡ word_at b.now (at + k) }
{
    first(b, at.saturating_add(k))
}

pub(crate) fn put_first(b: &mut [u64], at: usize, value: u64)
    ensures { b.new ≡ set b.old at value }
{
    if at < b.len() {
        b[at] = value;
    }
}

pub(crate) fn put_word(b: &mut [u64], at: usize, k: usize, value: u64)
    ensures { b.new ≡ set b.old (at + k) value }
{
    put_first(b, at.saturating_add(k), value);
}
