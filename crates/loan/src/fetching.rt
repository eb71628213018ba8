// The text of a program in the block: its instructions are fetched from the words where they stand.
ghost use Rattle.std.specs.Prelude.{◌≡◌, cond};
ghost use Rattle.block.specs.Layout.{earlier_text, later_text};
ghost use Rattle.block.specs.Cards.{text_in};

use block::texts::is_earlier;
use construction::programs::Instruction;
use helping::simulation::Text;
use texts::{instruction, size};

// The earlier or the later text of program k, and how many lines it has.
#[derive(Clone, Copy)]
pub(crate) struct BlockText<'a> {
    b: &'a [u64],
    earlier: bool,
    k: u8,
    lines: u8,
    ghost sized: { lines ≡ (cond earlier (earlier_text b.now k) (later_text b.now k)).length },
}

impl<'a> BlockText<'a> {
    // The text of program k under a gate number.
    pub(crate) fn under(b: &'a [u64], k: u8, number: u64) -> BlockText<'a>
        ensures { cond result.earlier (earlier_text result.b.now result.k) (later_text result.b.now result.k) ≡ text_in b.now k number }
    {
        let earlier = is_earlier(b, k, number);
        BlockText {
            b,
            earlier,
            k,
            lines: size(b, earlier, k),
        }
    }
}

impl<'a> Text for BlockText<'a> {
    ghost program = { λ x. cond x.earlier (earlier_text x.b.now x.k) (later_text x.b.now x.k) };

    fn fetch(&self, counter: u8) -> (Instruction, u8) {
        (
            instruction(self.b, self.earlier, self.k, counter),
            programs::remaining_after(self.lines, counter),
        )
    }
}
