// Machines that share one processor (document 02, order 14): the allowance of steps per shaft turn, by value. What a machine is, its requests and its
// answers are parameters of the definitions (specs/) and theorems (proofs/), which speak of every list of requests to all machines; the functions are the
// rule, a turn and the opening. It rests on the crate construction (answers and refusals).
#![tactic(auto)]

ghost use Rattle.std.specs.Prelude.{◌≡◌, true, cond, ltb, leb};
ghost use Rattle.allowance.specs.Allowing.{empty, quota_of, no_machines, quota_at, larger, reserved, has_allowance, unused, spend, allowed, turn, left_of};
ghost use Rattle.allowance.specs.Opening.{is_accepted, opened, are_ordered, shares, opened_as};

use construction::answers::Refusal;

// The most steps of a turn.
const MOST_STEPS: u64 = 100_000;

// The steps of one machine in a turn: those it is sure of, those it may have at most, and those it has used.
#[derive(Clone, Copy)]
pub struct Quota {
    pub share: u64,
    pub ceiling: u64,
    pub used: u64,
}

// The steps of the processor in a turn, the number of machines, and the quota of each; past the machines the quotas are empty.
#[derive(Clone, Copy)]
pub struct Allowance {
    pub steps: u64,
    pub count: u64,
    pub quotas: [Quota; 4],
}

// A quota with nothing used.
pub fn quota_of(share: u64, ceiling: u64) -> Quota
    ensures { result ≡ quota_of share ceiling }
{
    Quota {
        share,
        ceiling,
        used: 0,
    }
}

// The quota of a place where no machine is.
pub fn no_quota() -> Quota
    ensures { result ≡ empty }
{
    quota_of(0, 0)
}

// The allowance of no machines.
pub fn no_machines() -> Allowance
    ensures { result ≡ no_machines }
{
    Allowance {
        steps: 0,
        count: 0,
        quotas: [no_quota(); 4],
    }
}

// The quota of a machine.
fn quota_at(a: Allowance, m: u64) -> Quota
    ensures { result ≡ quota_at a m }
{
    if m < 4 {
        let i = m as usize;
        a.quotas[i]
    } else {
        no_quota()
    }
}

// The larger of share and steps used.
fn larger_of(q: Quota) -> u64
    ensures { result ≡ larger q }
{
    if q.share < q.used { q.used } else { q.share }
}

// What is left of some steps after four numbers are taken off, with no sum taken; none if they are too few.
fn left_of(steps: u64, taken: [u64; 4]) -> Option<u64>
    ensures { result ≡ left_of steps taken }
{
    let mut left = steps;
    for n in taken {
        if left < n {
            return None;
        }
        left -= n;
    }
    Some(left)
}

// Whether a turn has steps that are neither used nor kept back.
fn has_room(a: Allowance) -> bool
    ensures { result ≡ ltb (reserved a.quotas) a.steps }
{
    match left_of(a.steps, a.quotas.map(larger_of)) {
        Some(left) => 0 < left,
        None => false,
    }
}

// Whether a step of machine m has its allowance.
fn has_allowance(a: Allowance, m: u64) -> bool
    ensures { result ≡ has_allowance a m }
{
    let q = quota_at(a, m);
    q.used < q.share || q.used < q.ceiling && has_room(a)
}

// Machine m has used a step more.
fn spent(mut a: Allowance, m: u64) -> Allowance
    requires { has_allowance a m ≡ true }
    ensures { result ≡ spend a m }
{
    if m < 4 {
        let i = m as usize;
        let q = a.quotas[i];
        a.quotas[i] = Quota {
            used: q.used + 1,
            ..q
        };
    }
    a
}

// A step of machine m: the allowance with this step used, if it has its allowance.
pub fn allow(a: Allowance, m: u64) -> Option<Allowance>
    ensures { result ≡ allowed a m }
{
    if has_allowance(a, m) {
        Some(spent(a, m))
    } else {
        None
    }
}

// A quota with nothing used.
fn unused_quota(q: Quota) -> Quota
    ensures { result ≡ unused q }
{
    Quota { used: 0, ..q }
}

// A new turn.
pub fn turned(a: Allowance) -> Allowance
    ensures { result ≡ turn a }
{
    Allowance {
        quotas: a.quotas.map(unused_quota),
        ..a
    }
}

// The quota of a machine at opening, if it is there.
fn opened_quota(there: bool, q: Quota) -> Quota
    ensures { result ≡ cond there (unused q) empty }
{
    if there { unused_quota(q) } else { no_quota() }
}

// The quotas at opening.
// Each quota by its own number: `map` has no index, so it is no plainer.
fn opened_quotas(count: u64, quotas: [Quota; 4]) -> [Quota; 4]
    ensures { result ≡ opened count quotas }
{
    [
        opened_quota(0 < count, quotas[0]),
        opened_quota(1 < count, quotas[1]),
        opened_quota(2 < count, quotas[2]),
        opened_quota(3 < count, quotas[3]),
    ]
}

// Whether no share is above its ceiling.
fn are_ordered(quotas: [Quota; 4]) -> bool
    ensures { result ≡ are_ordered quotas }
{
    // `iter().all`: tried, and the proof did not close.
    for q in quotas {
        if q.ceiling < q.share {
            return false;
        }
    }
    true
}

// Whether the shares together fit a turn.
fn shares_fit(steps: u64, quotas: [Quota; 4]) -> bool
    ensures { result ≡ leb (shares quotas) steps }
{
    left_of(steps, quotas.map(|q| q.share)).is_some()
}

// Whether the terms are accepted; if not, refusal 18.
fn is_accepted(count: u64, steps: u64, quotas: [Quota; 4]) -> bool
    ensures { result ≡ is_accepted count steps quotas }
{
    if count < 1 {
        return false;
    }
    if 4 < count {
        return false;
    }
    if steps < 1 {
        return false;
    }
    if MOST_STEPS < steps {
        return false;
    }
    let q = opened_quotas(count, quotas);
    are_ordered(q) && shares_fit(steps, q)
}

// The allowance at opening; refused with 18.
pub fn open(count: u64, steps: u64, quotas: [Quota; 4]) -> Result<Allowance, Refusal>
    ensures { result ≡ opened_as count steps quotas }
{
    if !is_accepted(count, steps, quotas) {
        return Err(Refusal::BadTerms);
    }
    Ok(Allowance {
        steps,
        count,
        quotas: opened_quotas(count, quotas),
    })
}
