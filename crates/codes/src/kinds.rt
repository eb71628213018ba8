// The values that stand in words, each with its fields as specs/Codes lays them out.
ghost use Rattle.std.specs.Prelude.{◌≡◌, ◌+◌, refl};
ghost use Rattle.codes.specs.Codes.{halves, put_halves, number_of, number_words, gate_of, gate_words, control_of, control_words, announcement_of, announcement_words, record_of, record_words, operation_of, operation_words, simulation_of, simulation_words, item_of, item_words, program_of, program_words, program_long};

use crate::parts::{Part, first, put_first, put_word, word};
use crate::{
    bit, byte, flag_from, flag_word, half, holder_from, holder_word, instruction_from,
    instruction_word, odd, pair, place_from, place_word, upper,
};
use construction::accesses::Control;
use construction::card::Operation;
use construction::cells::{Announcement, Gate, Record, Words, Yield};
use construction::programs::{Instruction, Line, Program};
use construction::simulations::{Item, Simulation};

// Four numbers of 32 bits each, from word k of a part on.
fn words_at(b: &[u64], at: usize, k: u8) -> Words
    ensures { result ≡ halves b.now (at + k) }
{
    let k = k as usize;
    Words {
        w0: half(word(b, at, k)),
        w1: half(word(b, at, k + 1)),
        w2: half(word(b, at, k + 2)),
        w3: half(word(b, at, k + 3)),
    }
}

fn put_words(b: &mut [u64], at: usize, k: u8, words: Words)
    ensures { b.new ≡ put_halves b.old (at + k) words }
{
    let k = k as usize;
    put_word(b, at, k, words.w0 as u64);
    put_word(b, at, k + 1, words.w1 as u64);
    put_word(b, at, k + 2, words.w2 as u64);
    put_word(b, at, k + 3, words.w3 as u64);
}

impl Part for u64 {
    const SIZE: usize = 1;

    ghost SIZE = { 1 };

    ghost of = { number_of };

    ghost words = { number_words };

    ghost long = { λ x. refl };

    fn read(b: &[u64], at: usize) -> u64 {
        first(b, at)
    }

    fn store(self, b: &mut [u64], at: usize) {
        put_first(b, at, self);
    }
}

impl Part for Gate {
    const SIZE: usize = 2;

    ghost SIZE = { 2 };

    ghost of = { gate_of };

    ghost words = { gate_words };

    ghost long = { λ x. refl };

    fn read(b: &[u64], at: usize) -> Gate {
        Gate {
            holder: holder_from(first(b, at)),
            seq: word(b, at, 1),
        }
    }

    fn store(self, b: &mut [u64], at: usize) {
        put_first(b, at, holder_word(self.holder));
        put_word(b, at, 1, self.seq);
    }
}

impl Part for Control {
    const SIZE: usize = 2;

    ghost SIZE = { 2 };

    ghost of = { control_of };

    ghost words = { control_words };

    ghost long = { λ x. refl };

    fn read(b: &[u64], at: usize) -> Control {
        Control {
            place: place_from(first(b, at)),
            target: byte(word(b, at, 1)),
        }
    }

    fn store(self, b: &mut [u64], at: usize) {
        put_first(b, at, place_word(self.place));
        put_word(b, at, 1, self.target as u64);
    }
}

impl Part for Announcement {
    const SIZE: usize = 9;

    ghost SIZE = { 9 };

    ghost of = { announcement_of };

    ghost words = { announcement_words };

    ghost long = { λ x. refl };

    fn read(b: &[u64], at: usize) -> Announcement {
        Announcement {
            program: byte(first(b, at)),
            flag: flag_from(word(b, at, 1)),
            seq: word(b, at, 2),
            number: word(b, at, 3),
            words: words_at(b, at, 4),
            fault: odd(word(b, at, 8)),
        }
    }

    fn store(self, b: &mut [u64], at: usize) {
        put_first(b, at, self.program as u64);
        put_word(b, at, 1, flag_word(self.flag));
        put_word(b, at, 2, self.seq);
        put_word(b, at, 3, self.number);
        put_words(b, at, 4, self.words);
        put_word(b, at, 8, bit(self.fault));
    }
}

impl Part for Record {
    const SIZE: usize = 4;

    ghost SIZE = { 4 };

    ghost of = { record_of };

    ghost words = { record_words };

    ghost long = { λ x. refl };

    fn read(b: &[u64], at: usize) -> Record {
        Record {
            val0: half(first(b, at)),
            val1: half(word(b, at, 1)),
            toggle: odd(word(b, at, 2)),
            seq: word(b, at, 3),
        }
    }

    fn store(self, b: &mut [u64], at: usize) {
        put_first(b, at, self.val0 as u64);
        put_word(b, at, 1, self.val1 as u64);
        put_word(b, at, 2, bit(self.toggle));
        put_word(b, at, 3, self.seq);
    }
}

impl Part for Operation {
    const SIZE: usize = 5;

    ghost SIZE = { 5 };

    ghost of = { operation_of };

    ghost words = { operation_words };

    ghost long = { λ x. refl };

    fn read(b: &[u64], at: usize) -> Operation {
        Operation {
            program: byte(first(b, at)),
            inputs: words_at(b, at, 1),
        }
    }

    fn store(self, b: &mut [u64], at: usize) {
        put_first(b, at, self.program as u64);
        put_words(b, at, 1, self.inputs);
    }
}

impl Part for Simulation {
    const SIZE: usize = 10;

    ghost SIZE = { 10 };

    ghost of = { simulation_of };

    ghost words = { simulation_words };

    ghost long = { λ x. refl };

    fn read(b: &[u64], at: usize) -> Simulation {
        Simulation {
            counter: byte(first(b, at)),
            registers: words_at(b, at, 1),
            yields: Yield {
                outputs: words_at(b, at, 5),
                fault: odd(word(b, at, 9)),
            },
        }
    }

    fn store(self, b: &mut [u64], at: usize) {
        put_first(b, at, self.counter as u64);
        put_words(b, at, 1, self.registers);
        put_words(b, at, 5, self.yields.outputs);
        put_word(b, at, 9, bit(self.yields.fault));
    }
}

impl Part for Item {
    const SIZE: usize = 3;

    ghost SIZE = { 3 };

    ghost of = { item_of };

    ghost words = { item_words };

    ghost long = { λ x. refl };

    fn read(b: &[u64], at: usize) -> Item {
        let cells = word(b, at, 1);
        let own = word(b, at, 2);
        Item {
            variable: byte(upper(own)),
            value: half(own),
            cell: Record {
                val0: half(cells),
                val1: half(upper(cells)),
                toggle: odd(upper(own) / 256),
                seq: first(b, at),
            },
        }
    }

    fn store(self, b: &mut [u64], at: usize) {
        let mark = bit(self.cell.toggle) as u32;
        put_first(b, at, self.cell.seq);
        put_word(b, at, 1, pair(self.cell.val0, self.cell.val1));
        put_word(
            b,
            at,
            2,
            pair(self.value, self.variable as u32 + mark * 256),
        );
    }
}

impl Part for Program {
    const SIZE: usize = 33;

    ghost SIZE = { 33 };

    ghost of = { program_of };

    ghost words = { program_words };

    ghost long = { program_long };

    fn read(b: &[u64], at: usize) -> Program {
        let mut lines = [Line {
            instruction: Instruction::Stop,
        }; 32];
        for k in 0..32 {
            lines[k] = Line {
                instruction: instruction_from(word(b, at, k + 1)),
            };
        }
        Program {
            length: byte(first(b, at)),
            lines,
        }
    }

    fn store(self, b: &mut [u64], at: usize) {
        put_first(b, at, self.length as u64);
        for k in 0..32 {
            put_word(b, at, k + 1, instruction_word(self.lines[k].instruction));
        }
    }
}
