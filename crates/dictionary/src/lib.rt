// The dictionary D of the paper (document 01: book): items in order of first touch, and which is to be written; and the set of the variables noted.
// It rests on the crates construction (types and definitions) and cells (the two values of a record).
#![tactic(auto)]

ghost use Rattle.std.specs.Prelude.{◌≡◌, min};
ghost use Rattle.construction.specs.Marks.{with_bit};
ghost use Rattle.construction.specs.Dictionary.{value_under, item_of, insert, altered, next_write};

use construction::cells::Record;
use construction::simulations::{Dictionary, Item};

// How many items are noted.
pub fn noted(length: u8) -> u8
    ensures { result ≡ min length 32 }
{
    length.min(32)
}

// Lines H23 to H25: the value of a record under the held gate's number.
fn value_under(seq: u64, cell: Record) -> u32
    ensures { result ≡ value_under seq cell }
{
    if cell.seq < seq {
        cells::current(cell)
    } else {
        cells::previous(cell)
    }
}

// The item of a record that was read.
pub fn item_of(seq: u64, variable: u8, cell: Record) -> Item
    ensures { result ≡ item_of seq variable cell }
{
    Item {
        variable,
        value: value_under(seq, cell),
        cell,
    }
}

// Lines H24 and H25: one item more, unless the dictionary is full.
pub fn insert(dictionary: Dictionary, item: Item) -> Dictionary
    ensures { result ≡ insert dictionary item }
{
    let mut d = dictionary;
    if d.length < 32 {
        d.items[d.length as usize] = item;
        d.length += 1;
    }
    d
}

// Document 02, order 1: one variable more in a set that is a word, bit v for variable v. A word has no bit for a variable past 63.
pub fn with_bit(mask: u64, variable: u8) -> u64
    ensures { result ≡ with_bit mask variable }
{
    if variable < 64 {
        mask | (1u64 << variable)
    } else {
        mask
    }
}

// Line H32: whether an item is to be written.
pub fn altered(seq: u64, item: Item) -> bool
    ensures { result ≡ altered seq item }
{
    item.cell.seq < seq && cells::current(item.cell) != item.value
}

// Line H31: the place of the first item to be written, from a place on.
// The number of items where none is to be written, and no None: what may not change (`next_write` of construction/specs/Dictionary, of which theorems speak).
pub fn next_write(seq: u64, dictionary: Dictionary, from: u8) -> u8
    ensures { result ≡ next_write seq dictionary from }
{
    let end = noted(dictionary.length);
    for k in from..end {
        if altered(seq, dictionary.items[k as usize]) {
            return k;
        }
    }
    from.max(end)
}
