// A card text opened into a block of words that the caller lends, and the text written from a block (document 02, order 10). The text is read and written by the
// functions that the card by value has; the loan is not touched. It rests on the crates construction (types and definitions), codes (definitions), reader,
// writer, programs, opening, block and texts.
#![tactic(auto)]

ghost use Rattle.std.specs.Prelude.{◌≡◌, []};
ghost use Rattle.construction.specs.Cells.{open_gate};
ghost use Rattle.construction.specs.Parts.{contents_of};
ghost use Rattle.construction.specs.Opening.{read_card};
ghost use Rattle.codes.specs.Parts.{table};
ghost use Rattle.block.specs.Layout.{start_in, opening_text};
ghost use Rattle.block.specs.Cards.{card_of};
ghost use Rattle.writer.specs.Written.{Writes};
ghost use Rattle.lent_text.specs.Opened.{cleared, put_head, put_value, put_values, put_texts, put_programs, contents_block, judged, Opens};

use block::cells::{
    limit, process_count, program_count, put_gate, put_limit, put_process_count, put_program_count,
    put_record, put_room, put_variable_count, variable_count,
};
use block::texts::{put_start, start};
use construction::answers::Refusal;
use construction::cells::Gate;
use construction::programs::Program;
use construction::texts::{Contents, RefusedAt};
use programs::weights::heaviest;
use texts::Text;

// How many words a block has.
const SIZE: usize = 1456;

// Every word of a card becomes 0.
fn clear(b: &mut [u64])
    ensures { b.new ≡ cleared b.old }
{
    if SIZE <= b.len() {
        b[..SIZE].fill(0);
    }
}

fn open_gate() -> Gate
    ensures { result ≡ open_gate }
{
    Gate {
        holder: None,
        seq: 1,
    }
}

// w, the counts, the step limit and the gate.
fn put_head(b: &mut [u64], contents: Contents)
    ensures { b.new ≡ put_head b.old contents }
{
    put_room(b, heaviest(contents.programs));
    put_process_count(b, contents.process_count);
    put_variable_count(b, contents.variable_count);
    put_program_count(b, contents.program_count);
    put_limit(b, contents.limit);
    put_gate(b, open_gate());
}

// The starting value of variable v, with its record.
fn put_value(b: &mut [u64], v: u8, value: u32)
    ensures { b.new ≡ put_value b.old v value }
{
    put_start(b, v, value);
    put_record(b, v, opening::open_record(value));
}

fn put_values(b: &mut [u64], starts: [u32; 64])
    ensures { b.new ≡ put_values 64 b.old starts }
{
    for k in 0..64u8 {
        put_value(b, k, starts[k as usize]);
    }
}

// Program k as its opening, its earlier and its later text.
fn put_texts(b: &mut [u64], k: u8, program: Program)
    ensures { b.new ≡ put_texts b.old k program }
{
    texts::put_program(b, Text::Opening, k, program);
    texts::put_program(b, Text::Earlier, k, program);
    texts::put_program(b, Text::Later, k, program);
}

fn put_programs(b: &mut [u64], programs: [Program; 8])
    ensures { b.new ≡ put_programs 8 b.old programs }
{
    for k in 0..8u8 {
        put_texts(b, k, programs[k as usize]);
    }
}

// The card that these contents open to.
fn put_contents(b: &mut [u64], contents: Contents)
    ensures { b.new ≡ contents_block b.old contents }
{
    clear(b);
    put_head(b, contents);
    put_values(b, contents.starts);
    put_programs(b, contents.programs);
}

// The verdict on a block for a text that is accepted.
fn judge(b: &[u64]) -> Result<(), RefusedAt>
    ensures { result ≡ judged (Ok tt) b.now }
{
    if b.len() < SIZE {
        return Err(RefusedAt {
            refusal: Refusal::ShortBuffer,
            line: 0,
        });
    }
    Ok(())
}

// What a text opens to, a refused one to the empty card, and the verdict on it for this block.
fn opening_of(text: &[u8], b: &[u64]) -> (Contents, Result<(), RefusedAt>)
    ensures contents { result.0 ≡ (read_card text.now).contents }
    ensures verdict { result.1 ≡ judged (read_card text.now).verdict b.now }
{
    match reader::read_card(text) {
        Ok(read) => (read.value, judge(b)),
        Err(refused) => (reader::no_contents(), Err(refused)),
    }
}

// The card that a text opens to, in a block: a refused text leaves the empty card, and a block that is too short is left as it was. The contents are put
// at one place only: put at two, opening takes half as much stack again, more than include/lace_card.h tells.
pub fn open(text: &[u8], b: &mut [u64]) -> Result<(), RefusedAt>
    ensures { Opens text.now b.old result b.new }
{
    let (contents, verdict) = opening_of(text, b);
    put_contents(b, contents);
    verdict
}

fn starts_of(b: &[u64]) -> [u32; 64]
    ensures { result ≡ table 64 (λ v. start_in b.now v) }
{
    let mut starts = [0u32; 64];
    for k in 0..64u8 {
        starts[k as usize] = start(b, k);
    }
    starts
}

fn programs_of(b: &[u64]) -> [Program; 8]
    ensures { result ≡ table 8 (λ k. opening_text b.now k) }
{
    let mut programs = [opening::no_program(); 8];
    for k in 0..8u8 {
        programs[k as usize] = texts::program(b, Text::Opening, k);
    }
    programs
}

// What the card in a block was opened with.
pub fn contents_of(b: &[u64]) -> Contents
    ensures { result ≡ contents_of (card_of b.now []) }
{
    Contents {
        process_count: process_count(b),
        variable_count: variable_count(b),
        program_count: program_count(b),
        limit: limit(b),
        starts: starts_of(b),
        programs: programs_of(b),
    }
}

// The text of the card in a block.
pub fn write(b: &[u64], buffer: &mut [u8]) -> Result<usize, Refusal>
    ensures { Writes (card_of b.now []) buffer.old result buffer.new }
{
    writer::write_contents(contents_of(b), buffer)
}
