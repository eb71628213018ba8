// The card text: its lines, its reading, its writing.
use crate::answers::Refusal;
use crate::card::Card;
use crate::programs::Program;

// The numbers of the first line of a card text (document 01: p, n, s and the step limit).
#[derive(Clone, Copy)]
pub struct CardNumbers {
    pub process_count: u8,
    pub variable_count: u8,
    pub program_count: u8,
    pub limit: u64,
}

// What a card text says.
#[derive(Clone, Copy)]
pub struct Contents {
    pub process_count: u8,
    pub variable_count: u8,
    pub program_count: u8,
    pub limit: u64,
    pub starts: [u32; 64],
    pub programs: [Program; 8],
}

// Why a text is refused, and at which line.
#[derive(Clone, Copy)]
pub struct RefusedAt {
    pub refusal: Refusal,
    pub line: u64,
}

// The card of a text, empty where the text is refused.
// Not a Result: what may not change (`opened`, of which theorems as `refused_empty` speak): the card of a refused text is the empty card and stands beside the refusal.
#[derive(Clone, Copy)]
pub struct Opened {
    pub card: Card,
    pub verdict: Result<(), RefusedAt>,
}
