// A card text opened into the block of a machine.
ghost use Rattle.std.specs.Prelude.{◌≡◌};
ghost use Rattle.shared_processor.specs.Opening.{card_verdict, with_card};

use crate::places::{BLOCK, part_of};
use construction::texts::RefusedAt;

// Opens a card text into the block of machine m; refused with 11 where the words end before the block does.
pub fn open_card(blocks: &mut [u64], m: u32, text: &[u8]) -> Result<(), RefusedAt>
    ensures { (result ≡ card_verdict text.now blocks.old m) × (blocks.new ≡ with_card text.now blocks.old m) }
{
    let block = part_of(BLOCK, m, blocks.len());
    lent_text::open(text, &mut blocks[block.start..block.end])
}
