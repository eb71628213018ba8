// The text of a change (document 02, order 11): one program as a card text has it, and nothing after it.
ghost use Rattle.std.specs.Prelude.{◌≡◌};
ghost use Rattle.construction.specs.Changes.{program_text};
ghost use Rattle.reader.specs.Told.{program_told};

use crate::{Read, read_program};
use construction::answers::Refusal;
use construction::programs::Program;
use construction::texts::RefusedAt;

// The program of a text for a card with so many variables; one that weighs more than `most` is refused.
pub fn read_change(variable_count: u8, most: u8, text: &[u8]) -> Result<Read<Program>, RefusedAt>
    ensures { result ≡ program_told (program_text variable_count most text.now) }
{
    if 16384 < text.len() {
        return Err(RefusedAt {
            refusal: Refusal::TooLong,
            line: 0,
        });
    }
    let read = read_program(variable_count, most, text, 0, 1)?;
    if read.at == text.len() {
        Ok(read)
    } else {
        Err(RefusedAt {
            refusal: Refusal::Malformed,
            line: read.line,
        })
    }
}
