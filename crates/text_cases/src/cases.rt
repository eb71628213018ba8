// The texts of the input, each after its decimal length and byte 10.
ghost use Rattle.std.specs.Prelude.{◌≡◌};
ghost use Rattle.text_cases.specs.Cases.{case_at};

use crate::Case;
use grammar::Found;
use grammar::reading::field_at;

// The text whose length stands at a place.
pub(crate) fn case_at(input: &[u8], at: usize) -> Option<Case>
    ensures { result ≡ case_at input.now at }
{
    let Some(Found { value, next }) = field_at(input, b'\n', at) else {
        return None;
    };
    let left = input.len() - next;
    if (left as u64) < value {
        None
    } else {
        Some(Case {
            start: next,
            end: next + value as usize,
        })
    }
}
