// The lines of a card text (document 01, "The card text"): each yields its fields and the place past it, or a refusal.
// It rests on the crates grammar and construction. Every public function is total, and its contract gives its whole result.
#![tactic(auto)]

ghost use Rattle.std.specs.Prelude.{◌≡◌, Some};
ghost use Rattle.construction.specs.Instructions.{in_range, ranged, unused_zero, each_operand, kinds, row_of, instruction_of, encoded, decode as decoded};
ghost use Rattle.construction.specs.Lines.{card_fits, card_line, var_line, sheet_line, ins_line};

use construction::answers::Refusal;
use construction::programs::OperandKind::{Register, Skip, Unused, Variable, Word};
use construction::programs::{Encoded, Format, Instruction, OperandKind};
use construction::texts::CardNumbers;
use grammar::reading::{field_at, four_at, has_word};
use grammar::{Found, Four};

fn in_range(low: u64, high: u64, x: u64) -> bool
    ensures { result ≡ in_range low high x }
{
    low <= x && x <= high
}

// A code that there is, by the kinds of its operands.
fn known(a: OperandKind, b: OperandKind, c: OperandKind) -> Option<Format>
    ensures { result ≡ Some (kinds a b c) }
{
    Some(Format { a, b, c })
}

// The format of a code, from the table of codes 0, which is none, to 14.
fn format_of(code: u64) -> Option<Format>
    ensures { result ≡ (row_of code).format }
{
    let registers = known(Register, Register, Unused);
    let constant = known(Register, Word, Unused);
    let load = known(Register, Variable, Unused);
    let store = known(Variable, Register, Unused);
    let skip = known(Register, Register, Skip);
    let stop = known(Unused, Unused, Unused);
    let register = known(Register, Unused, Unused);
    let formats = [
        None, registers, constant, load, store, registers, registers, registers, registers, skip,
        skip, registers, stop, register, register,
    ];
    // A test in place of `get`, which would need `copied` and the same None: no plainer.
    if code < 15 {
        formats[code as usize]
    } else {
        None
    }
}

// The instruction of a code whose operands are bytes.
fn instruction_of(code: u64, a: u8, b: u8, c: u8) -> Instruction
    ensures { result ≡ instruction_of (encoded code a b c) }
{
    let instructions = [
        Instruction::Stop,
        Instruction::Input {
            register: a,
            input: b,
        },
        Instruction::Constant {
            register: a,
            constant: b as u32,
        },
        Instruction::Load {
            register: a,
            variable: b,
        },
        Instruction::Store {
            variable: a,
            register: b,
        },
        Instruction::LoadAt {
            register: a,
            address: b,
        },
        Instruction::StoreAt {
            address: a,
            register: b,
        },
        Instruction::Add {
            register: a,
            operand: b,
        },
        Instruction::Subtract {
            register: a,
            operand: b,
        },
        Instruction::SkipEqual {
            left: a,
            right: b,
            skip: c,
        },
        Instruction::SkipLess {
            left: a,
            right: b,
            skip: c,
        },
        Instruction::Output {
            output: a,
            register: b,
        },
        Instruction::Stop,
        Instruction::Allocate { register: a },
        Instruction::Free { register: a },
    ];
    // As in `format_of`: `get` would need `copied` and the same default.
    if code < 15 {
        instructions[code as usize]
    } else {
        Instruction::Stop
    }
}

// Whether an operand is within the range of its kind, on a card of so many variables. An unused one has no range.
fn operand_in_range(variable_count: u8, kind: OperandKind, x: u64) -> bool
    ensures { result ≡ ranged variable_count kind x }
{
    match kind {
        Unused => true,
        Register => x < 4,
        Word => x < 4_294_967_296,
        Variable => x < variable_count as u64,
        Skip => in_range(1, 31, x),
    }
}

// Whether an operand is 0 where it is unused.
fn operand_zero_if_unused(kind: OperandKind, x: u64) -> bool
    ensures { result ≡ unused_zero kind x }
{
    !matches!(kind, Unused) || x == 0
}

// Whether the operands are within the ranges of their kinds.
fn operands_in_range(variable_count: u8, format: Format, x: Encoded) -> bool
    ensures { result ≡ each_operand (ranged variable_count) format x }
{
    operand_in_range(variable_count, format.a, x.a)
        && operand_in_range(variable_count, format.b, x.b)
        && operand_in_range(variable_count, format.c, x.c)
}

// Whether the operands of unused kinds are 0.
fn operands_zero_if_unused(format: Format, x: Encoded) -> bool
    ensures { result ≡ each_operand unused_zero format x }
{
    operand_zero_if_unused(format.a, x.a)
        && operand_zero_if_unused(format.b, x.b)
        && operand_zero_if_unused(format.c, x.c)
}

// The instruction of a code and its operands, on a card of so many variables: refusals 4, 12 and 13. An operand that is not refused is told
// whole by its low byte, a constant by its low word.
pub fn decode(variable_count: u8, x: Encoded) -> Result<Instruction, Refusal>
    ensures { result ≡ decoded variable_count x }
{
    let format = format_of(x.code).ok_or(Refusal::UnknownCode)?;
    if !operands_in_range(variable_count, format, x) {
        return Err(Refusal::OperandOutOfRange);
    }
    if !operands_zero_if_unused(format, x) {
        return Err(Refusal::UnusedOperand);
    }
    let a = (x.a % 256) as u8;
    let b = (x.b % 256) as u8;
    let c = (x.c % 256) as u8;
    let constant = (x.b % 4_294_967_296) as u32;
    if x.code == 2 {
        return Ok(Instruction::Constant {
            register: a,
            constant,
        });
    }
    Ok(instruction_of(x.code, a, b, c))
}

fn card_fits(process_count: u64, variable_count: u64, program_count: u64, limit: u64) -> bool
    ensures { result ≡ card_fits process_count variable_count program_count limit }
{
    in_range(1, 8, process_count)
        && in_range(1, 64, variable_count)
        && in_range(1, 8, program_count)
        && in_range(1, 1_000_000_000_000_000_000, limit)
}

// `card,p,n,s,limit`
pub fn card_line(text: &[u8], at: usize) -> Result<Found<CardNumbers>, Refusal>
    ensures { result ≡ card_line text.now at }
{
    if !has_word(text, at, b"card,") {
        return Err(Refusal::Malformed);
    }
    let Found { value, next } = four_at(text, at + 5).ok_or(Refusal::Malformed)?;
    let Four { a, b, c, d } = value;
    if !card_fits(a, b, c, d) {
        return Err(Refusal::OutOfRange);
    }
    let value = CardNumbers {
        process_count: a as u8,
        variable_count: b as u8,
        program_count: c as u8,
        limit: d,
    };
    Ok(Found { value, next })
}

// `var,value`
pub fn var_line(text: &[u8], at: usize) -> Result<Found<u32>, Refusal>
    ensures { result ≡ var_line text.now at }
{
    if !has_word(text, at, b"var,") {
        return Err(Refusal::Malformed);
    }
    let Found { value, next } = field_at(text, b'\n', at + 4).ok_or(Refusal::Malformed)?;
    if 4_294_967_296 <= value {
        return Err(Refusal::OutOfRange);
    }
    let value = value as u32;
    Ok(Found { value, next })
}

// `sheet,length`
pub fn sheet_line(text: &[u8], at: usize) -> Result<Found<u8>, Refusal>
    ensures { result ≡ sheet_line text.now at }
{
    if !has_word(text, at, b"sheet,") {
        return Err(Refusal::Malformed);
    }
    let Found { value, next } = field_at(text, b'\n', at + 6).ok_or(Refusal::Malformed)?;
    if !in_range(1, 32, value) {
        return Err(Refusal::OutOfRange);
    }
    let value = value as u8;
    Ok(Found { value, next })
}

// `ins,code,a,b,c`, on a card of so many variables
pub fn ins_line(variable_count: u8, text: &[u8], at: usize) -> Result<Found<Instruction>, Refusal>
    ensures { result ≡ ins_line variable_count text.now at }
{
    if !has_word(text, at, b"ins,") {
        return Err(Refusal::Malformed);
    }
    let Found { value, next } = four_at(text, at + 4).ok_or(Refusal::Malformed)?;
    let Four { a, b, c, d } = value;
    let x = Encoded {
        code: a,
        a: b,
        b: c,
        c: d,
    };
    let value = decode(variable_count, x)?;
    Ok(Found { value, next })
}
