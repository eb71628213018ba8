// How much programs weigh (document 02, order 3): how many records their instructions can touch for the first time, reached or not.
ghost use Rattle.std.specs.Prelude.{◌≡◌};
ghost use Rattle.construction.specs.Weight.{weight_of, weight, heaviest};

use crate::instruction_at;
use construction::programs::{Instruction, Program};

// The weight of an instruction.
pub fn weight_of(instruction: Instruction) -> u8
    ensures { result ≡ weight_of instruction }
{
    match instruction {
        Instruction::Load { .. }
        | Instruction::Store { .. }
        | Instruction::LoadAt { .. }
        | Instruction::StoreAt { .. } => 1,
        Instruction::Allocate { .. } | Instruction::Free { .. } => 2,
        _ => 0,
    }
}

// The weight of a program.
pub fn weight(program: Program) -> u8
    ensures { result ≡ weight program }
{
    let mut total: u8 = 0;
    for k in 0..32u8 {
        let instruction = instruction_at(program.length, k, program.lines[k as usize]);
        total += weight_of(instruction);
    }
    total
}

// The largest weight of the programs of a card.
pub fn heaviest(programs: [Program; 8]) -> u8
    ensures { result ≡ heaviest programs }
{
    let mut most: u8 = 0;
    for k in (0..8usize).rev() {
        let one = weight(programs[k]);
        if most < one {
            most = one;
        }
    }
    most
}
