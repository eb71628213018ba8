// A program that runs on the numbers of a dictionary, whose values it alters.
ghost use Rattle.std.specs.Prelude.{◌≡◌, suc, ◌-◌, min, drop};
ghost use Rattle.construction.specs.declared.programs.Program.{Program};
ghost use Rattle.construction.specs.Instructions.{fetch, shortened, next_instruction};
ghost use Rattle.helping.specs.Numbers.{faulting, Turns, Runs};

use crate::numbers::Numbers;
use construction::cells::Words;
use construction::programs::{Effect, Instruction, Program};
use construction::simulations::{Pause, Simulation};

// Why a program stands still, and its state.
#[derive(Clone, Copy)]
pub struct Paused {
    pub pause: Pause,
    pub simulation: Simulation,
}

// The text of a program, wherever it stands.
pub trait Text {
    // the program that it is
    ghost program: { Self → Program };

    // Line H7: the instruction at a counter, and how many stand behind it. So shortened it is the one that runs.
    fn fetch(&self, counter: u8) -> (Instruction, u8)
        ensures instruction { result.0 ≡ fetch (program self.now) counter }
        ensures behind { result.1 ≡ (program self.now).length - suc counter }
        ensures next { shortened result.1 result.0 ≡ next_instruction (program self.now) counter };
}

impl Text for Program {
    ghost program = { λ y. y };

    fn fetch(&self, counter: u8) -> (Instruction, u8) {
        let line = self.lines[(counter % 32) as usize];
        (
            programs::instruction_at(self.length, counter, line),
            programs::remaining_after(self.length, counter),
        )
    }
}

// Lines H7 and H20 to H30: one instruction with so many behind it, on the first keys and values. The program goes on in the state that it
// leaves, or stands still.
pub fn turn(
    n: u8,
    instruction: Instruction,
    remaining: u8,
    inputs: Words,
    s: Simulation,
    numbers: &mut Numbers,
) -> Result<Simulation, Paused>
    ensures told { Turns n (shortened remaining instruction) inputs s numbers.old.keys (min numbers.old.end 32) numbers.old.values numbers.new.values result }
    ensures keys { numbers.new.keys ≡ numbers.old.keys }
    ensures end { numbers.new.end ≡ numbers.old.end }
{
    let effect = programs::effect_of(n, inputs, s.registers, remaining, instruction);
    match effect {
        Effect::Stop => Err(Paused {
            pause: Pause::Ended,
            simulation: s,
        }),
        Effect::Fault => Err(fault(s)),
        Effect::Set { register, value } => Ok(programs::with_register(s, register, value)),
        Effect::Load { register, variable } => {
            let source = numbers.place(variable, s)?;
            Ok(programs::with_register(s, register, numbers.values[source]))
        }
        Effect::Store { variable, value } => {
            let target = numbers.place(variable, s)?;
            numbers.values[target] = value;
            Ok(programs::skipped(s, 0))
        }
        Effect::Output { output, value } => Ok(programs::with_output(s, output, value)),
        Effect::Skip { count } => Ok(programs::skipped(s, count)),
        Effect::Allocate { register } => {
            let first = numbers.place(0, s)?;
            let number = numbers.values[first];
            if programs::is_astray(n, number) {
                return Err(fault(s));
            }
            // where there is no free cell, this is variable 0 itself, which is 0 and stays so
            let place = numbers.place(number as u8, s)?;
            numbers.values[first] = numbers.values[place];
            numbers.values[place] = 0;
            Ok(programs::with_register(s, register, number))
        }
        Effect::Free { cell } => {
            let first = numbers.place(0, s)?;
            let place = numbers.place(cell, s)?;
            numbers.values[place] = numbers.values[first];
            numbers.values[first] = cell as u32;
            Ok(programs::skipped(s, 0))
        }
    }
}

// A program that stands still after a fault.
fn fault(s: Simulation) -> Paused
    ensures { result ≡ faulting s }
{
    Paused {
        pause: Pause::Faulted,
        simulation: programs::faulted(s),
    }
}

// Lines H7 and H20 to H30: the program of a text runs until it ends, or ends as a fault, or lacks a variable.
pub fn simulate<T: Text>(
    n: u8,
    text: &T,
    inputs: Words,
    s: Simulation,
    numbers: &mut Numbers,
) -> Paused
    ensures told { Runs n (T.program text.now) inputs s numbers.old.keys (min numbers.old.end 32) numbers.old.values numbers.new.values result }
    ensures rest { drop (min numbers.old.end 32) numbers.new.values ≡ drop (min numbers.old.end 32) numbers.old.values }
    ensures keys { numbers.new.keys ≡ numbers.old.keys }
    ensures end { numbers.new.end ≡ numbers.old.end }
{
    let mut s = s;
    for _k in 0..32u8 {
        let (instruction, remaining) = text.fetch(s.counter);
        match turn(n, instruction, remaining, inputs, s, numbers) {
            Ok(next) => s = next,
            Err(paused) => return paused,
        }
    }
    Paused {
        pause: Pause::Ended,
        simulation: s,
    }
}
