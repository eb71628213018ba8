// The lines at the end: what was counted, the longest wait beside its bound, the gate's number, and what a read shows of every variable.
ghost use Rattle.std.specs.Prelude.{◌≡◌, ◌++◌};
ghost use Rattle.grammar.specs.Writing.{field_text, Put};
ghost use Rattle.sweeping.specs.Printing.{bound_in, counts_text, wait_text, head_text, reads_text, summary_text};
ghost use Rattle.block.specs.Layout.{variable_count_in};

use block::cells::{gate, process_count, room, variable_count};
use commands::Command;
use commands::printing::put_line;
use grammar::writing::{put_field, put_word};
use lent_card::requesting::read;
use lent_sweep::Counts;
use reports::no_report;
use wait_table::wait_for;

// The longest wait on the card in a block; 0 outside the table.
fn bound(b: &[u64]) -> u64
    ensures { result ≡ bound_in b.now }
{
    wait_for(process_count(b), room(b)).unwrap_or(0)
}

// A word and a number.
fn put_count(buffer: &mut [u8], at: usize, word: &[u8], value: u64) -> usize
    ensures { Put buffer.old at (word.now ++ field_text 10 value) result buffer.new }
{
    let next = put_word(buffer, at, word);
    put_field(buffer, next, b'\n', value)
}

// The lines of the counts.
fn put_counts(buffer: &mut [u8], counts: Counts) -> usize
    ensures { Put buffer.old 0 (counts_text counts) result buffer.new }
{
    let i = put_count(buffer, 0, b"steps,", counts.accepted);
    let j = put_count(buffer, i, b"done,", counts.done);
    put_count(buffer, j, b"fault,", counts.faulted)
}

// The line of the longest wait.
fn put_wait(buffer: &mut [u8], at: usize, longest: u64, bound: u64) -> usize
    ensures { Put buffer.old at (wait_text longest bound) result buffer.new }
{
    let i = put_word(buffer, at, b"wait,");
    let j = put_field(buffer, i, b',', longest);
    put_field(buffer, j, b'\n', bound)
}

// The lines before those of the variables.
fn put_head(buffer: &mut [u8], b: &[u64], counts: Counts) -> usize
    ensures { Put buffer.old 0 (head_text b.now counts) result buffer.new }
{
    let gate = gate(b);
    let i = put_counts(buffer, counts);
    let j = put_wait(buffer, i, counts.longest, bound(b));
    put_count(buffer, j, b"gate,", gate.seq)
}

// The lines of the variables.
fn put_reads(buffer: &mut [u8], at: usize, b: &[u64]) -> usize
    ensures { Put buffer.old at (reads_text b.now (variable_count_in b.now) 0) result buffer.new }
{
    let count = variable_count(b);
    let mut i = at;
    for v in 0..count {
        let command = Command::Read { variable: v as u32 };
        i = put_line(buffer, i, 0, command, no_report(), read(b, v as u32));
    }
    i
}

// What a sweep prints, as far as it fits into the buffer; the place past it.
pub fn put_summary(buffer: &mut [u8], b: &[u64], counts: Counts) -> usize
    ensures { Put buffer.old 0 (summary_text b.now counts) result buffer.new }
{
    let at = put_head(buffer, b, counts);
    put_reads(buffer, at, b)
}
