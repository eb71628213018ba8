// Speed and cells of sweeps (document 02, order 12): card K's program with eight processes, each called again as soon as its operation returns. The first
// line of standard input is COUNT,LIMIT,WORDS,LOAN: the card's step limit, and how many words of the table of calls and of the loan are lent. The bytes
// after it, 4,096 at most, are a schedule that is run COUNT times; where there are none, COUNT steps are made by pseudo-random numbers. The shared cells and
// the counts are printed at the end. tests/speed/sweep.py compares both with tests/speed/steps/steps.rs, and times it.
#![tactic(auto)]

ghost use Rattle.std.specs.Prelude.{◌≡◌, min, ◌≤◌};
ghost use Rattle.sweeping.specs.Pieces.{Finishes};
ghost use Rattle.sweep_speed.specs.Rounds.{Repeats};

use block::cells::{announcement, gate, record};
use construction::cells::Words;
use grammar::Found;
use grammar::reading::four_at;
use grammar::writing::{put_field, put_word};
use host::{read_input, show_decimal};
use lent_card::requesting::call;
use lent_sweep::Counts;
use lent_sweep::counting::none;
use lent_sweep::running::run;
use report::{show_announcement, show_gate, show_record};
use sweeping::Progress;
use sweeping::pieces::{added, advance, begin};

// Where the pseudo-random numbers start from.
const SEED: u64 = 88_172_645_463_325_252;

// The table of calls: program 0, with the number of the process as the first input.
const CALLS: [u32; 40] = [
    0, 0, 0, 0, 0, 0, 1, 0, 0, 0, 0, 2, 0, 0, 0, 0, 3, 0, 0, 0, 0, 4, 0, 0, 0, 0, 5, 0, 0, 0, 0, 6,
    0, 0, 0, 0, 7, 0, 0, 0,
];

// A schedule, run so many times.
fn repeat(b: &mut [u64], l: &mut [u64], calls: &[u32], schedule: &[u8], count: u64) -> Counts
    ensures { Repeats calls.now schedule.now count b.old l.old result b.new l.new }
{
    let mut counts = none();
    for k in 0..count {
        counts = added(counts, run(b, l, calls, schedule));
    }
    counts
}

// All pieces of a sweep by pseudo-random numbers.
fn sweep(b: &mut [u64], l: &mut [u64], calls: &[u32], first: Progress) -> Progress
    ensures { Finishes calls.now b.old l.old first result b.new l.new }
{
    let mut q = first;
    // How many steps are left is told by each piece, so no range gives it.
    while q.left > 0 {
        q = advance(b, l, calls, q);
    }
    q
}

// Opens the card with a step limit.
fn open(b: &mut [u64], limit: u64) {
    let mut text = host::buffer();
    let i = put_word(&mut text, 0, b"card,8,1,1,");
    let j = put_field(&mut text, i, b'\n', limit);
    let k = put_word(
        &mut text,
        j,
        b"var,7\nsheet,4\nins,1,0,0,0\nins,3,1,0,0\nins,4,0,0,0\nins,11,0,1,0\n",
    );
    if k <= 4096 {
        // this text is accepted
        let _ = lent_text::open(&text[..k], b);
    }
}

// Calls every process, with its own number as input.
fn call_all(b: &mut [u64]) {
    for process in 0..8 {
        let inputs = Words {
            w0: process,
            w1: 0,
            w2: 0,
            w3: 0,
        };
        call(b, process, 0, inputs);
    }
}

// A word and a number on a line.
fn print_count(rt: &impl Print, word: &[u8], value: u64) {
    host::show(rt, word);
    show_decimal(rt, value);
    host::show(rt, b"\n");
}

// The gate, the announcements, the record of variable 0, and the counts.
fn show(rt: &impl Print, b: &[u64], counts: Counts) {
    show_gate(rt, gate(b));
    for process in 0..8 {
        show_announcement(rt, process as u64, announcement(b, process));
    }
    show_record(rt, 0, record(b, 0));
    print_count(rt, b"accepted,", counts.accepted);
    print_count(rt, b"done,", counts.done);
    print_count(rt, b"fault,", counts.faulted);
    print_count(rt, b"exit,", counts.exited);
    print_count(rt, b"longest,", counts.longest);
}

// How many words are lent: as many as are asked for, and no more than there are.
fn lent(asked: u64, most: u64) -> usize
    ensures { result ≡ min asked most }
{
    asked.min(most) as usize
}

// The steps on a card with a limit, and what they come to.
fn answer(rt: &impl Print, count: u64, limit: u64, words: usize, loan: usize, schedule: &[u8])
    requires { (words ≤ 40) × (loan ≤ 48) }
{
    let mut b = [0u64; 1456];
    let mut l = [0u64; 48];
    open(&mut b, limit);
    call_all(&mut b);
    if schedule.len() == 0 {
        let q = sweep(&mut b, &mut l[..loan], &CALLS[..words], begin(count, SEED));
        show(rt, &b, q.counts);
    } else {
        let counts = repeat(&mut b, &mut l[..loan], &CALLS[..words], schedule, count);
        show(rt, &b, counts);
    }
}

fn main(rt: HostRuntime) {
    let mut text = [0u8; 4200];
    let length = read_input(&rt, &mut text);
    let Some(Found { value, next }) = four_at(&text, 0) else {
        return;
    };
    if next <= length {
        let words = lent(value.c, 40);
        let loan = lent(value.d, 48);
        answer(&rt, value.a, value.b, words, loan, &text[next..length]);
    }
}
