// Items of a loan, from an item on.
ghost use Rattle.std.specs.Prelude.{◌≡◌, ℕ, suc, ◌+◌, ◌*◌, ◌<◌, ◌≤◌, length, get_or};
ghost use Rattle.construction.specs.Dictionary.{no_item, next_write};
ghost use Rattle.construction.specs.Machine.{write_from};
ghost use Rattle.block.specs.Cards.{dictionary_at};
ghost use Rattle.helping.specs.Numbers.{no_numbers};
ghost use Rattle.loan.specs.Items.{numbers_at, put_value, put_values};
ghost use Rattle.loan.specs.Loans.{Fits};

use codes::parts::Part;
use codes::{byte, half, pair, upper};
use construction::accesses::Control;
use construction::simulations::Item;
use helping::numbers::Numbers;
use helping::write_from;

fn put_value(l: &mut [u64], k: usize, value: u32)
    requires { (k < 20000) × (k * 3 + 3 ≤ length l.old) }
    ensures { (l.new ≡ put_value l.old k value) × (value < 4294967296) }
{
    let high = (l[k * 3 + 2] / 4294967296) as u32;
    l[k * 3 + 2] = pair(value, high);
}

// Items one behind the other: the first of them, and how many these are.
#[derive(Clone, Copy)]
pub(crate) struct Span {
    pub base: usize,
    pub end: u8,
}

impl Span {
    // An item of a dictionary; past the noted ones stands what an empty one has there.
    pub(crate) fn item_or(self, l: &[u64], k: u8) -> Item
        requires { Fits l.now self }
        ensures { result ≡ get_or (dictionary_at l.now self.base self.end).items k no_item }
    {
        if k < self.end {
            Item::read(l, (self.base + k as usize) * 3)
        } else {
            opening::no_item()
        }
    }

    // The variables and values of the items. The caller lends the place for them: given back by value they would be copied.
    pub(crate) fn get_numbers(self, l: &[u64], numbers: &mut Numbers)
        requires fits { Fits l.now self }
        requires none { numbers.old ≡ no_numbers }
        ensures { numbers.new ≡ numbers_at l.now self.base self.end }
    {
        numbers.end = self.end;
        for k in 0..self.end as usize {
            let own = l[(self.base + k) * 3 + 2];
            numbers.keys[k] = byte(upper(own));
            numbers.values[k] = half(own);
        }
    }

    // The items with other values.
    pub(crate) fn put_values(self, l: &mut [u64], values: &[u32; 32])
        requires { Fits l.old self }
        ensures { (l.new ≡ put_values l.old self.base self.end values.now) × ((k : ℕ) → k < self.end → get_or values.now k 0 < 4294967296) }
    {
        for k in 0..self.end as usize {
            put_value(l, self.base + k, values[k]);
        }
    }

    // Line H31: the place of the first item to be written, from a place on.
    // The end where none is to be written, and no None: what may not change (`next_write` of construction/specs/Dictionary).
    pub(crate) fn next_write(self, l: &[u64], seq: u64, from: u8) -> u8
        requires { Fits l.now self }
        ensures { result ≡ next_write seq (dictionary_at l.now self.base self.end) from }
    {
        for k in from..self.end {
            let item = Item::read(l, (self.base + k as usize) * 3);
            if dictionary::altered(seq, item) {
                return k;
            }
        }
        from.max(self.end)
    }

    // Lines H31 and H32: where a helper goes on that wrote item k.
    pub(crate) fn after_write(self, l: &[u64], seq: u64, k: u8) -> Control
        requires { Fits l.now self }
        ensures { result ≡ write_from seq (dictionary_at l.now self.base self.end) (suc k) }
    {
        if k < self.end {
            write_from(self.next_write(l, seq, k + 1), self.end)
        } else {
            write_from(0, 0)
        }
    }
}
