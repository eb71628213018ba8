// The texts of the programs in a block of words (document 02, orders 10 and 11): an instruction fetched, a text taken out by value and put back, and the
// later text made the earlier one. It rests on the crates construction (types and definitions), codes, opening and block.
#![tactic(auto)]

ghost use Rattle.std.specs.Prelude.{◌≡◌, cond, ◌+◌, ◌<◌, ◌≤◌, length};
ghost use Rattle.construction.specs.Instructions.{no_program, fetch};
ghost use Rattle.codes.specs.Parts.{part, stores};
ghost use Rattle.codes.specs.Codes.{program_of};
ghost use Rattle.block.specs.Layout.{row_at, earlier_text, later_text, keep_later};
ghost use Rattle.texts.specs.Texts.{text_base, text_at, put_text};

use block::numbers::is_room;
use block::parts::{put_row, row_at};
use codes::{byte, instruction_from};
use construction::programs::{Instruction, Program};

// Which text of a program: the one that the card was opened with, the one below the number of its last change, or the one from that number on.
#[derive(Clone, Copy)]
pub enum Text {
    Opening,
    Earlier,
    Later,
}

// The first word of the texts of a kind.
fn base_of(text: Text) -> usize
    ensures { result ≡ text_base text }
{
    match text {
        Text::Opening => 656,
        Text::Earlier => 928,
        Text::Later => 1192,
    }
}

// The instruction at a place of program k, of the texts from word `base` on. Only two words are read: a step fetches one.
fn fetch_at(b: &[u64], base: usize, k: u8, counter: u8) -> Instruction
    requires { base + 264 ≤ 1456 }
    ensures { result ≡ fetch (row_at b.now base 33 8 program_of no_program k) counter }
{
    if is_room(b, k, 8) {
        let at = base + 33 * (k as usize);
        if counter < byte(b[at]) && counter < 32 {
            return instruction_from(b[at + (counter as usize + 1)]);
        }
    }
    Instruction::Stop
}

// The instruction at a place of the earlier or the later text of program k.
pub fn instruction(b: &[u64], earlier: bool, k: u8, counter: u8) -> Instruction
    ensures { result ≡ fetch (cond earlier (earlier_text b.now k) (later_text b.now k)) counter }
{
    if earlier {
        return fetch_at(b, 928, k, counter);
    }
    fetch_at(b, 1192, k, counter)
}

// How many instructions program k has, of the texts from word `base` on.
fn size_at(b: &[u64], base: usize, k: u8) -> u8
    requires { base + 264 ≤ 1456 }
    ensures { result ≡ (row_at b.now base 33 8 program_of no_program k).length }
{
    if is_room(b, k, 8) {
        return byte(b[base + 33 * (k as usize)]);
    }
    0
}

// How many instructions the earlier or the later text of program k has.
pub fn size(b: &[u64], earlier: bool, k: u8) -> u8
    ensures { result ≡ (cond earlier (earlier_text b.now k) (later_text b.now k)).length }
{
    if earlier {
        return size_at(b, 928, k);
    }
    size_at(b, 1192, k)
}

// A text of program k.
pub fn program(b: &[u64], text: Text, k: u8) -> Program
    ensures { result ≡ text_at b.now text k }
{
    row_at(b, base_of(text), 8, k, opening::no_program())
}

pub fn put_program(b: &mut [u64], text: Text, k: u8, value: Program)
    ensures { b.new ≡ put_text b.old text k value }
{
    put_row(b, base_of(text), 8, k, value);
}

// The 33 words of a text copied to words before them, as they stand: read and stored, a word of no instruction would become another.
fn copy(b: &mut [u64], start: usize, to: usize)
    requires { (start < 1000000) × (to + 33 ≤ start) × (start + 33 ≤ length b.old) }
    ensures { b.new ≡ stores b.old to (part b.old start 33) }
{
    for k in 0..33 {
        b[to + k] = b[start + k];
    }
}

// The later text of program k becomes the earlier one.
pub fn keep_later(b: &mut [u64], k: u8)
    ensures { b.new ≡ keep_later b.old k }
{
    if is_room(b, k, 8) {
        copy(b, 1192 + 33 * (k as usize), 928 + 33 * (k as usize));
    }
}
