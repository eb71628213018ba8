// The longest wait (document 02, order 3): the handbook's table of 264 numbers, for p processes (1 to 8) and the weight w of a card
// (0 to 32), and its text. It rests on the crates grammar, construction and programs.
#![tactic(auto)]

ghost use Rattle.std.specs.Prelude.{◌≡◌, ◌+◌, ◌<◌};
ghost use Rattle.grammar.specs.Writing.{Put};
ghost use Rattle.construction.specs.Parts.{contents_of};
ghost use Rattle.construction.specs.Weight.{card_weight};
ghost use Rattle.construction.specs.Waits.{longest_wait};
ghost use Rattle.wait_table.specs.Table.{wait_for, separator as separatorOf, row_text, table_text};

use construction::card::Card;
use grammar::writing::put_field;
use programs::weights::heaviest;

// A line for each p, with w rising.
const WAITS: [u64; 264] = [
    // p = 1
    24, 28, 32, 36, 40, 44, 48, 52, 56, 60, 64, 68, 72, 76, 80, 84, 88, 92, 96, 100, 104, 108, 112,
    116, 120, 124, 128, 132, 136, 140, 144, 148, 152,
    // p = 2
    34, 40, 46, 52, 58, 64, 70, 76, 82, 88, 94, 100, 106, 112, 118, 124, 130, 136, 142, 148, 154,
    160, 166, 172, 178, 184, 190, 196, 202, 208, 214, 220, 226,
    // p = 3
    44, 52, 60, 68, 76, 84, 92, 100, 108, 116, 124, 132, 140, 148, 156, 164, 172, 180, 188, 196,
    204, 212, 220, 228, 236, 244, 252, 260, 268, 276, 284, 292, 300,
    // p = 4
    54, 64, 74, 84, 94, 104, 114, 124, 134, 144, 154, 164, 174, 184, 194, 204, 214, 224, 234, 244,
    254, 264, 274, 284, 294, 304, 314, 324, 334, 344, 354, 364, 374,
    // p = 5
    64, 76, 88, 100, 112, 124, 136, 148, 160, 172, 184, 196, 208, 220, 232, 244, 256, 268, 280,
    292, 304, 316, 328, 340, 352, 364, 376, 388, 400, 412, 424, 436, 448,
    // p = 6
    74, 88, 102, 116, 130, 144, 158, 172, 186, 200, 214, 228, 242, 256, 270, 284, 298, 312, 326,
    340, 354, 368, 382, 396, 410, 424, 438, 452, 466, 480, 494, 508, 522,
    // p = 7
    84, 100, 116, 132, 148, 164, 180, 196, 212, 228, 244, 260, 276, 292, 308, 324, 340, 356, 372,
    388, 404, 420, 436, 452, 468, 484, 500, 516, 532, 548, 564, 580, 596,
    // p = 8
    94, 112, 130, 148, 166, 184, 202, 220, 238, 256, 274, 292, 310, 328, 346, 364, 382, 400, 418,
    436, 454, 472, 490, 508, 526, 544, 562, 580, 598, 616, 634, 652, 670,
];

// The number for p = row + 1 and w.
fn entry(row: u8, weight: u8) -> u64
    requires { (row < 8) × (weight < 33) }
    ensures { result ≡ longest_wait (row + 1) weight }
{
    WAITS[row as usize * 33 + weight as usize]
}

// The longest wait for so many processes and a weight, in own steps of the operation and without an exit request; the table may have none.
pub fn wait_for(process_count: u8, weight: u8) -> Option<u64>
    ensures { result ≡ wait_for process_count weight }
{
    if process_count == 0 || 8 < process_count || 32 < weight {
        return None;
    }
    Some(entry(process_count - 1, weight))
}

// The longest wait on a card.
pub fn wait_of(card: Card) -> Option<u64>
    ensures { result ≡ wait_for card.process_count (card_weight (contents_of card)) }
{
    wait_for(card.process_count, heaviest(card.programs))
}

// What stands after the number of a weight: a comma, or the end of the line.
fn separator(weight: u8) -> u8
    ensures { result ≡ separatorOf weight }
{
    if weight < 32 { b',' } else { b'\n' }
}

fn put_row(buffer: &mut [u8], at: usize, row: u8) -> usize
    requires { row < 8 }
    ensures { Put buffer.old at (row_text (row + 1) 33 0) result buffer.new }
{
    let mut i = at;
    for weight in 0..33u8 {
        i = put_field(buffer, i, separator(weight), entry(row, weight));
    }
    i
}

// The text of the table put into a buffer at a place, as far as it fits; the place past it.
pub fn put_table(buffer: &mut [u8], at: usize) -> usize
    ensures { Put buffer.old at table_text result buffer.new }
{
    let mut i = at;
    for row in 0..8u8 {
        i = put_row(buffer, i, row);
    }
    i
}
