// The writer of a card text (document 01, "Turned back"): the card as it was opened, after any steps, put into a lent buffer.
// It rests on the crates grammar, opening and construction.
#![tactic(auto)]

ghost use Rattle.std.specs.Prelude.{◌≡◌, get_or};
ghost use Rattle.grammar.specs.Writing.{Put};
ghost use Rattle.construction.specs.Instructions.{encoded as encodedAs, encode as encodedOf};
ghost use Rattle.construction.specs.Lines.{var_text, ins_text};
ghost use Rattle.construction.specs.Opening.{fresh};
ghost use Rattle.construction.specs.Writing.{vars_text, lines_text, program_text, programs_text, text_of};
ghost use Rattle.writer.specs.Written.{Writes};

use construction::answers::Refusal;
use construction::card::Card;
use construction::programs::{Encoded, Instruction, Line, Program};
use construction::texts::Contents;
use grammar::writing::{put_field, put_four, put_word};

fn encoded(code: u64, a: u8, b: u8, c: u8) -> Encoded
    ensures { result ≡ encodedAs code a b c }
{
    Encoded {
        code,
        a: a as u64,
        b: b as u64,
        c: c as u64,
    }
}

// The code and the operands of an instruction.
#[tactic(auto, unfolding(construction::specs::Instructions::encode))]
pub fn encode(x: Instruction) -> Encoded
    ensures { result ≡ encodedOf x }
{
    match x {
        Instruction::Stop => encoded(12, 0, 0, 0),
        Instruction::Input { register, input } => encoded(1, register, input, 0),
        Instruction::Constant { register, constant } => Encoded {
            code: 2,
            a: register as u64,
            b: constant as u64,
            c: 0,
        },
        Instruction::Load { register, variable } => encoded(3, register, variable, 0),
        Instruction::Store { variable, register } => encoded(4, variable, register, 0),
        Instruction::LoadAt { register, address } => encoded(5, register, address, 0),
        Instruction::StoreAt { address, register } => encoded(6, address, register, 0),
        Instruction::Add { register, operand } => encoded(7, register, operand, 0),
        Instruction::Subtract { register, operand } => encoded(8, register, operand, 0),
        Instruction::SkipEqual { left, right, skip } => encoded(9, left, right, skip),
        Instruction::SkipLess { left, right, skip } => encoded(10, left, right, skip),
        Instruction::Output { output, register } => encoded(11, output, register, 0),
        Instruction::Allocate { register } => encoded(13, register, 0, 0),
        Instruction::Free { register } => encoded(14, register, 0, 0),
    }
}

// The value at place k, and another past the end.
fn value_at<T: Copy>(values: &[T], k: u8, past: T) -> T
    ensures { result ≡ get_or values.now k past }
{
    values.get(k as usize).copied().unwrap_or(past)
}

fn put_var(buffer: &mut [u8], at: usize, value: u32) -> usize
    ensures { Put buffer.old at (var_text value) result buffer.new }
{
    let next = put_word(buffer, at, b"var,");
    put_field(buffer, next, b'\n', value as u64)
}

fn put_vars(buffer: &mut [u8], at: usize, count: u8, starts: [u32; 64]) -> usize
    ensures { Put buffer.old at (vars_text count 0 starts) result buffer.new }
{
    let mut i = at;
    for k in 0..count {
        i = put_var(buffer, i, value_at(&starts, k, 0));
    }
    i
}

fn put_instruction(buffer: &mut [u8], at: usize, x: Instruction) -> usize
    ensures { Put buffer.old at (ins_text x) result buffer.new }
{
    let next = put_word(buffer, at, b"ins,");
    let e = encode(x);
    put_four(buffer, next, e.code, e.a, e.b, e.c)
}

fn put_lines(buffer: &mut [u8], at: usize, count: u8, lines: [Line; 32]) -> usize
    ensures { Put buffer.old at (lines_text count 0 lines) result buffer.new }
{
    let mut i = at;
    for k in 0..count {
        let line = value_at(&lines, k, opening::no_line());
        i = put_instruction(buffer, i, line.instruction);
    }
    i
}

fn put_program(buffer: &mut [u8], at: usize, x: Program) -> usize
    ensures { Put buffer.old at (program_text x) result buffer.new }
{
    let i = put_word(buffer, at, b"sheet,");
    let j = put_field(buffer, i, b'\n', x.length as u64);
    put_lines(buffer, j, x.length, x.lines)
}

fn put_programs(buffer: &mut [u8], at: usize, count: u8, programs: [Program; 8]) -> usize
    ensures { Put buffer.old at (programs_text count 0 programs) result buffer.new }
{
    let mut i = at;
    for k in 0..count {
        i = put_program(buffer, i, value_at(&programs, k, opening::no_program()));
    }
    i
}

// The text of a card with these contents at the front of a buffer, as far as it fits; the place told is the length of the text.
fn put_text(buffer: &mut [u8], contents: Contents) -> usize
    ensures { Put buffer.old 0 (text_of (fresh contents)) result buffer.new }
{
    if contents.process_count == 0 {
        return 0;
    }
    let i = put_word(buffer, 0, b"card,");
    let j = put_four(
        buffer,
        i,
        contents.process_count as u64,
        contents.variable_count as u64,
        contents.program_count as u64,
        contents.limit,
    );
    let k = put_vars(buffer, j, contents.variable_count, contents.starts);
    put_programs(buffer, k, contents.program_count, contents.programs)
}

// The text of a card with these contents. The length of the text is learnt from a buffer of no bytes; then the text is put where it fits.
pub fn write_contents(contents: Contents, buffer: &mut [u8]) -> Result<usize, Refusal>
    ensures { Writes (fresh contents) buffer.old result buffer.new }
{
    let length = put_text(&mut buffer[..0], contents);
    if length <= buffer.len() {
        put_text(buffer, contents);
        Ok(length)
    } else {
        Err(Refusal::ShortBuffer)
    }
}

// The text of a card: that of what it was opened with.
pub fn write(card: Card, buffer: &mut [u8]) -> Result<usize, Refusal>
    ensures { Writes card buffer.old result buffer.new }
{
    // variables, since a literal takes no array straight from another value's field: tried, and the proof did not close
    let starts = card.starts;
    let programs = card.programs;
    let contents = Contents {
        process_count: card.process_count,
        variable_count: card.variable_count,
        program_count: card.program_count,
        limit: card.limit,
        starts,
        programs,
    };
    write_contents(contents, buffer)
}
