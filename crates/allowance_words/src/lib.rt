// The allowance of machines that share one processor (document 02, order 14) in words that a caller lends: read from them, and stored. It rests on the crates
// allowance (the value) and codes (words of a part).
#![tactic(auto)]

ghost use Rattle.std.specs.Prelude.{◌≡◌, ◌+◌, ◌≤◌, length, set};
ghost use Rattle.codes.specs.Parts.{stores};
ghost use Rattle.allowance_words.specs.Words.{quota_in, allowance_in, quota_words, with_allowance, term_at, terms_in};

use allowance::{Allowance, Quota, no_machines, no_quota, quota_of};

// The quota that stands at a place.
// Not an impl of the trait `Part` of codes: an impl has to stand with its trait or with its type, and neither is of this crate.
fn quota_in(words: &[u64], at: usize) -> Quota
    requires { at + 3 ≤ length words.now }
    ensures { result ≡ quota_in words.now at }
{
    Quota {
        share: words[at],
        ceiling: words[at + 1],
        used: words[at + 2],
    }
}

// The allowance in the words.
pub fn allowance_in(words: &[u64]) -> Allowance
    ensures { result ≡ allowance_in words.now }
{
    if words.len() < 14 {
        return no_machines();
    }
    Allowance {
        steps: words[0],
        count: words[1],
        // Each place once: a map over the places is no plainer.
        quotas: [
            quota_in(words, 2),
            quota_in(words, 5),
            quota_in(words, 8),
            quota_in(words, 11),
        ],
    }
}

// A word, if there is one at that place.
fn put(words: &mut [u64], k: usize, value: u64)
    ensures { words.new ≡ set words.old k value }
{
    if k < words.len() {
        words[k] = value;
    }
}

// A quota from a place on.
fn put_quota(words: &mut [u64], at: usize, q: Quota)
    requires { at ≤ 11 }
    ensures { words.new ≡ stores words.old at (quota_words q) }
{
    put(words, at, q.share);
    put(words, at + 1, q.ceiling);
    put(words, at + 2, q.used);
}

// The allowance into the words, if they are enough for one.
pub fn put_allowance(words: &mut [u64], a: Allowance)
    ensures { words.new ≡ with_allowance words.old a }
{
    if words.len() < 14 {
        return;
    }
    put(words, 0, a.steps);
    put(words, 1, a.count);
    put_quota(words, 2, a.quotas[0]);
    put_quota(words, 5, a.quotas[1]);
    put_quota(words, 8, a.quotas[2]);
    put_quota(words, 11, a.quotas[3]);
}

// Share and ceiling that stand at a place, if both are there.
fn term_at(terms: &[u64], at: usize) -> Quota
    requires { at ≤ 6 }
    ensures { result ≡ term_at terms.now at }
{
    if at + 1 < terms.len() {
        quota_of(terms[at], terms[at + 1])
    } else {
        no_quota()
    }
}

// The terms of four machines, two words each.
pub fn terms_in(terms: &[u64]) -> [Quota; 4]
    ensures { result ≡ terms_in terms.now }
{
    [
        term_at(terms, 0),
        term_at(terms, 2),
        term_at(terms, 4),
        term_at(terms, 6),
    ]
}
