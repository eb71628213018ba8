// The dictionary of a process: what stands in the loan for it, by process number.
ghost use Rattle.std.specs.Prelude.{◌≡◌, get_or};
ghost use Rattle.construction.specs.Dictionary.{no_item, next_write};
ghost use Rattle.construction.specs.Machine.{writing};
ghost use Rattle.loan.specs.Loans.{loan_words, has_items, span_in, held_dictionary, insert_block, insert_loan};

use crate::items::Span;
use block::cells::{process_count, room};
use block::own::{noted, put_noted};
use codes::parts::Part;
use construction::accesses::{Control, Writing};
use construction::simulations::Item;

// How many words the loan of the card in a block takes.
pub fn loan_words(b: &[u64]) -> usize
    ensures { result ≡ loan_words b.now }
{
    3 * (process_count(b) as usize) * (room(b) as usize)
}

// Whether the loan has room for the dictionary of process i.
pub fn has_items(b: &[u64], l: &[u64], i: u8) -> bool
    ensures { result ≡ has_items b.now l.now i }
{
    let w = room(b) as usize;
    (w * (i as usize) + w) * 3 <= l.len()
}

// The items of process i.
pub(crate) fn items_of(b: &[u64], l: &[u64], i: u8) -> Span
    ensures { result ≡ span_in b.now l.now i }
{
    if has_items(b, l, i) {
        Span {
            base: room(b) as usize * (i as usize),
            end: noted(b, i),
        }
    } else {
        Span { base: 0, end: 0 }
    }
}

// Item k of process i; past the noted ones stands what an empty dictionary has there.
pub fn item(b: &[u64], l: &[u64], i: u8, k: u8) -> Item
    ensures { result ≡ get_or (held_dictionary b.now l.now i).items k no_item }
{
    items_of(b, l, i).item_or(l, k)
}

// Line H31: the place of the first item of process i to be written, from a place on.
pub fn next_write(b: &[u64], l: &[u64], i: u8, seq: u64, from: u8) -> u8
    ensures { result ≡ next_write seq (held_dictionary b.now l.now i) from }
{
    items_of(b, l, i).next_write(l, seq, from)
}

// Line H36: the item that process i writes, and where it goes on.
pub fn writing(b: &[u64], l: &[u64], i: u8, number: u64, control: Control) -> Writing
    ensures { result ≡ writing number control (held_dictionary b.now l.now i) }
{
    let span = items_of(b, l, i);
    Writing {
        item: span.item_or(l, control.target),
        control: span.after_write(l, number, control.target),
    }
}

// Lines H24 and H25: one item more for process i, unless w stand there already.
pub fn insert(b: &mut [u64], l: &mut [u64], i: u8, item: Item)
    ensures { (b.new ≡ insert_block b.old l.old i) × (l.new ≡ insert_loan b.old l.old i item) }
{
    if has_items(b, l, i) {
        let end = noted(b, i);
        let w = room(b);
        if end < w {
            item.store(l, (w as usize * i as usize + end as usize) * 3);
            put_noted(b, i, end + 1);
        }
    }
}
