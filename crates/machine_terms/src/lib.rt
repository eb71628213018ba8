// The text `machines.txt` of the program `machines` (document 02, order 14): the steps of a turn, and the share and the ceiling of each machine, read to the
// allowance at opening or a refusal with its line. It rests on the crates grammar (words and fields), allowance (the opening), answers and construction (types).
// Every public function is total, and its contract gives its whole result.
#![tactic(auto)]

ghost use Rattle.std.specs.Prelude.{◌≡◌, set};
ghost use Rattle.machine_terms.specs.Terms.{pair, line, quotas_read, refused, judged_as, terms};

use allowance::{Allowance, Quota, no_machines, no_quota, open, quota_of};
use construction::answers::Refusal;
use construction::texts::RefusedAt;
use grammar::Found;
use grammar::reading::{field_at, has_word};

// The two numbers of a line.
#[derive(Clone, Copy)]
pub struct Pair {
    pub a: u64,
    pub b: u64,
}

// The allowance at opening, of no machines where the text is refused, and the verdict.
#[derive(Clone, Copy)]
pub struct Terms {
    pub allowance: Allowance,
    pub verdict: Result<(), RefusedAt>,
}

// The most bytes of the text.
const LIMIT: usize = 16_384;

// Two numbers, parted by a comma and ended by byte 10.
#[tactic(auto, unfolding(crate::specs::Terms::pair))]
fn pair_at(text: &[u8], at: usize) -> Option<Found<Pair>>
    ensures { result ≡ pair text.now at }
{
    let a = field_at(text, b',', at)?;
    let b = field_at(text, b'\n', a.next)?;
    Some(Found {
        value: Pair {
            a: a.value,
            b: b.value,
        },
        next: b.next,
    })
}

// A line of a word and two numbers.
#[tactic(auto, unfolding(crate::specs::Terms::line))]
fn line_at(text: &[u8], at: usize, word: &[u8]) -> Option<Found<Pair>>
    ensures { result ≡ line text.now at word.now }
{
    if has_word(text, at, word) {
        pair_at(text, at + word.len())
    } else {
        None
    }
}

// The quotas with that of machine k.
fn with_quota(quotas: [Quota; 4], k: u8, quota: Quota) -> [Quota; 4]
    ensures { result ≡ set quotas k quota }
{
    let mut quotas = quotas;
    if k < 4 {
        quotas[k as usize] = quota;
    }
    quotas
}

// The quotas that the lines of so many machines from a place on say, after which nothing may follow; or the number of the first line that is malformed or left over.
fn read_quotas(text: &[u8], start: usize, count: u8) -> Result<[Quota; 4], u64>
    ensures { result ≡ quotas_read text.now start count }
{
    let mut quotas = [no_quota(); 4];
    let mut at = start;
    for k in 0..count {
        let Some(Found { value, next }) = line_at(text, at, b"machine,") else {
            return Err(k as u64 + 2);
        };
        // Not straight into `quotas`, which is lent here: tried, and the proof did not close.
        let more = with_quota(quotas, k, quota_of(value.a, value.b));
        quotas = more;
        at = next;
    }
    if at < text.len() {
        return Err(count as u64 + 2);
    }
    Ok(quotas)
}

// Refused terms, which leave no machines.
fn refused_with(refusal: Refusal, line: u64) -> Terms
    ensures { result ≡ refused refusal line }
{
    Terms {
        allowance: no_machines(),
        verdict: Err(RefusedAt { refusal, line }),
    }
}

// What opening answers.
#[tactic(auto, unfolding(crate::specs::Terms::judged_as))]
fn judged(opened: Result<Allowance, Refusal>) -> Terms
    ensures { result ≡ judged_as opened }
{
    match opened {
        Ok(allowance) => Terms {
            allowance,
            verdict: Ok(()),
        },
        Err(refusal) => refused_with(refusal, 0),
    }
}

// The terms of a text: its length, its first line, the number of machines, the lines of these, and what they say together.
pub fn read_terms(text: &[u8]) -> Terms
    ensures { result ≡ terms text.now }
{
    if LIMIT < text.len() {
        return refused_with(Refusal::TooLong, 0);
    }
    let Some(Found { value, next }) = line_at(text, 0, b"machines,") else {
        return refused_with(Refusal::Malformed, 1);
    };
    if value.a < 1 || 4 < value.a {
        return refused_with(Refusal::BadTerms, 0);
    }
    match read_quotas(text, next, value.a as u8) {
        Ok(quotas) => judged(open(value.a, value.b, quotas)),
        Err(line) => refused_with(Refusal::Malformed, line),
    }
}
