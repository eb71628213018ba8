// Instructions, their codes and programs.

// One of the fourteen kinds of instruction, with only its own operands.
#[derive(Clone, Copy)]
pub enum Instruction {
    Stop,
    Input { register: u8, input: u8 },
    Constant { register: u8, constant: u32 },
    Load { register: u8, variable: u8 },
    Store { variable: u8, register: u8 },
    LoadAt { register: u8, address: u8 },
    StoreAt { address: u8, register: u8 },
    Add { register: u8, operand: u8 },
    Subtract { register: u8, operand: u8 },
    SkipEqual { left: u8, right: u8, skip: u8 },
    SkipLess { left: u8, right: u8, skip: u8 },
    Output { output: u8, register: u8 },
    Allocate { register: u8 },
    Free { register: u8 },
}

// What an operand of an instruction is: not used, a register (also an input or an output), a word, a variable, or a number of
// instructions to skip.
#[derive(Clone, Copy)]
pub enum OperandKind {
    Unused,
    Register,
    Word,
    Variable,
    Skip,
}

// The format of a code: the kinds of its operands a, b and c.
#[derive(Clone, Copy)]
pub struct Format {
    pub a: OperandKind,
    pub b: OperandKind,
    pub c: OperandKind,
}

// The four numbers of an instruction's line.
#[derive(Clone, Copy)]
pub struct Encoded {
    pub code: u64,
    pub a: u64,
    pub b: u64,
    pub c: u64,
}

// A line of a program.
#[derive(Clone, Copy)]
pub struct Line {
    pub instruction: Instruction,
}

// A program (document 01: sheet).
#[derive(Clone, Copy)]
pub struct Program {
    pub length: u8,
    pub lines: [Line; 32],
}

// What one instruction does: a register set, a variable loaded or stored, an output set, instructions skipped, the first free cell taken, a cell
// given back, the end, or the end as a fault.
#[derive(Clone, Copy)]
pub enum Effect {
    Stop,
    Fault,
    Set { register: u8, value: u32 },
    Load { register: u8, variable: u8 },
    Store { variable: u8, value: u32 },
    Output { output: u8, value: u32 },
    Skip { count: u8 },
    Allocate { register: u8 },
    Free { cell: u8 },
}
