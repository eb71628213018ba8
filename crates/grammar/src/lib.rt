// Decimals, fields and words of the text formats of document 01: read at a place of a slice, and
// written into a lent buffer. It rests on no other crate. Every public function is total, and its
// contract gives its whole result and every byte of the buffer.
#![tactic(auto)]

pub mod reading; // reading.rt: bytes, words, decimals and fields at a place of a text
pub mod writing; // writing.rt: the same put into a buffer, as far as it reaches

// What stands at a place of a text, and the place past it.
#[derive(Clone, Copy)]
pub struct Found<T> {
    pub value: T,
    pub next: usize,
}

// The last four numbers of a line.
// A struct and no array: `judge_card` and `judge_ins` of construction name each number, and over a list they would have to judge lists of other lengths: no plainer.
#[derive(Clone, Copy)]
pub struct Four {
    pub a: u64,
    pub b: u64,
    pub c: u64,
    pub d: u64,
}
