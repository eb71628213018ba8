// Small values as words (document 02, order 10): a code for each place, flag, holder and instruction, and the value of every word. Every word is some
// value, so that every block of words is some card. It rests on the crates construction (types), labels
// (the words of places) and writer (the numbers of an instruction).
#![tactic(auto)]

ghost use Rattle.std.specs.Prelude.{◌≡◌};
ghost use Rattle.codes.specs.Codes.{byte, half, odd, bit, holder_from, holder_word, flag_from, flag_word, place_from, place_word, instruction_from, packed, instruction_word, pair, upper};

pub mod parts; // parts.rt: a value in words of its own
mod kinds; // kinds.rt: the values that stand in words

use construction::accesses::Label;
use construction::cells::Flag;
use construction::programs::{Encoded, Instruction};
use labels::label_row;

pub fn byte(w: u64) -> u8
    ensures { result ≡ byte w }
{
    (w % 256) as u8
}

pub fn half(w: u64) -> u32
    ensures { result ≡ half w }
{
    (w % 4294967296) as u32
}

pub fn odd(w: u64) -> bool
    ensures { result ≡ odd w }
{
    w % 2 == 1
}

pub fn bit(test: bool) -> u64
    ensures { result ≡ bit test }
{
    if test { 1 } else { 0 }
}

// Two numbers in a word, and the second of them.
pub fn pair(low: u32, high: u32) -> u64
    ensures { result ≡ pair low high }
{
    low as u64 + high as u64 * 4294967296
}

pub fn upper(w: u64) -> u64
    ensures { result ≡ upper w }
{
    w / 4294967296
}

// Functions in place of `From`: the types stand in construction, which has no function, and a word is no type of this crate. So the new form is no plainer.
#[tactic(auto, unfolding(crate::specs::Codes::holder_from))]
pub fn holder_from(w: u64) -> Option<u8>
    ensures { result ≡ holder_from w }
{
    if w == 0 {
        return None;
    }
    Some(byte(w - 1))
}

pub fn holder_word(holder: Option<u8>) -> u64
    ensures { result ≡ holder_word holder }
{
    match holder {
        None => 0,
        Some(m) => m as u64 + 1,
    }
}

#[tactic(auto, unfolding(crate::specs::Codes::flag_from))]
pub fn flag_from(w: u64) -> Flag
    ensures { result ≡ flag_from w }
{
    match w {
        0 => Flag::Done,
        1 => Flag::Active,
        _ => Flag::Exit,
    }
}

pub fn flag_word(flag: Flag) -> u64
    ensures { result ≡ flag_word flag }
{
    match flag {
        Flag::Done => 0,
        Flag::Active => 1,
        Flag::Exit => 2,
    }
}

#[tactic(auto, unfolding(crate::specs::Codes::place_from))]
pub fn place_from(w: u64) -> Label
    ensures { result ≡ place_from w }
{
    match w {
        1 => Label::P1,
        2 => Label::P3,
        3 => Label::P5,
        4 => Label::P7,
        5 => Label::P10,
        6 => Label::C2,
        7 => Label::C4,
        8 => Label::P13,
        9 => Label::P14,
        10 => Label::P16,
        11 => Label::H21,
        12 => Label::H36,
        13 => Label::P19,
        14 => Label::P20,
        15 => Label::P21,
        16 => Label::P22,
        17 => Label::F1,
        18 => Label::F3,
        19 => Label::P6,
        _ => Label::Idle,
    }
}

pub fn place_word(place: Label) -> u64
    ensures { result ≡ place_word place }
{
    label_row(place).word
}

#[tactic(auto, unfolding(crate::specs::Codes::instruction_from))]
pub fn instruction_from(w: u64) -> Instruction
    ensures { result ≡ instruction_from w }
{
    let a = byte(w / 256);
    let x = half(w / 4294967296);
    let b = byte(w / 4294967296);
    let c = byte(w / 65536);
    match byte(w) {
        1 => Instruction::Input {
            register: a,
            input: b,
        },
        2 => Instruction::Constant {
            register: a,
            constant: x,
        },
        3 => Instruction::Load {
            register: a,
            variable: b,
        },
        4 => Instruction::Store {
            variable: a,
            register: b,
        },
        5 => Instruction::LoadAt {
            register: a,
            address: b,
        },
        6 => Instruction::StoreAt {
            address: a,
            register: b,
        },
        7 => Instruction::Add {
            register: a,
            operand: b,
        },
        8 => Instruction::Subtract {
            register: a,
            operand: b,
        },
        9 => Instruction::SkipEqual {
            left: a,
            right: b,
            skip: c,
        },
        10 => Instruction::SkipLess {
            left: a,
            right: b,
            skip: c,
        },
        11 => Instruction::Output {
            output: a,
            register: b,
        },
        13 => Instruction::Allocate { register: a },
        14 => Instruction::Free { register: a },
        _ => Instruction::Stop,
    }
}

// The four numbers of an instruction's line in one word, each as far as its bytes go.
fn packed(line: Encoded) -> u64
    ensures { result ≡ packed line }
{
    line.code % 256 + line.a % 256 * 256 + line.c % 256 * 65536 + line.b % 4294967296 * 4294967296
}

// The word of an instruction.
pub fn instruction_word(x: Instruction) -> u64
    ensures { result ≡ instruction_word x }
{
    packed(writer::encode(x))
}
