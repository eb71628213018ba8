// The reader of a card text (document 01, "The card text" and "Turned back"): the text is judged by its length, then line by line,
// and the card is made once, at the end. The text of a change (document 02, order 11) is read by the same functions. It rests on the crates lines,
// opening, programs and construction.
#![tactic(auto)]

pub mod changes; // changes.rt: the text of a change

ghost use Rattle.std.specs.Prelude.{◌≡◌, ◌≤◌, replicate};
ghost use Rattle.construction.specs.Opening.{begun, no_contents, program_so_far, so_far, ins_from, read_program, programs_from, vars_from, then_end, then_programs, read_card, opened};
ghost use Rattle.construction.specs.Instructions.{no_line};
ghost use Rattle.construction.specs.Types.{told_at};
ghost use Rattle.reader.specs.Told.{program_told, contents_told, refusal_of};

use construction::answers::Refusal;
use construction::programs::{Line, Program};
use construction::texts::{CardNumbers, Contents, Opened, RefusedAt};
use programs::weights::weight;

// What was read of a text, the place of the next line and its number.
#[derive(Clone, Copy)]
pub struct Read<T> {
    pub value: T,
    pub at: usize,
    pub line: u64,
}

// Why and at which line a text is refused, by a line that was read. `let .. else`, which document 01 names for these lines, binds nothing of what it turns back.
fn refused<T: Copy>(read: Result<T, Refusal>, number: u64) -> RefusedAt
    ensures { result ≡ told_at (refusal_of read) number }
{
    match read {
        Ok(_) => RefusedAt {
            refusal: Refusal::Malformed,
            line: number,
        },
        Err(refusal) => RefusedAt {
            refusal,
            line: number,
        },
    }
}

// The contents after the `card` line alone.
fn begun_contents(process_count: u8, variable_count: u8, program_count: u8, limit: u64) -> Contents
    ensures { result ≡ begun process_count variable_count program_count limit }
{
    Contents {
        process_count,
        variable_count,
        program_count,
        limit,
        starts: [0; 64],
        programs: [opening::no_program(); 8],
    }
}

// The contents of the empty card, which a refused text opens to.
pub fn no_contents() -> Contents
    ensures { result ≡ no_contents }
{
    begun_contents(0, 0, 0, 0)
}

// The lines of a program, as many as its `sheet` line says.
fn read_lines(
    variable_count: u8,
    text: &[u8],
    length: u8,
    start: usize,
    first: u64,
) -> Result<Read<Program>, RefusedAt>
    requires { (length ≤ 32) × (first ≤ 10000) }
    ensures { result ≡ program_told (ins_from variable_count text.now length 0 (program_so_far length (replicate 32 no_line) start first)) }
{
    let mut lines = [opening::no_line(); 32];
    let mut at = start;
    let mut number = first;
    for k in 0..length as usize {
        let read = lines::ins_line(variable_count, text, at);
        let Ok(line) = read else {
            return Err(refused(read, number));
        };
        lines[k] = Line {
            instruction: line.value,
        };
        at = line.next;
        number += 1;
    }
    Ok(Read {
        value: Program { length, lines },
        at,
        line: number,
    })
}

// One program: its `sheet` line and its lines. One that counts more than `most`, which is 32 in a card, is refused at its last line.
pub(crate) fn read_program(
    variable_count: u8,
    most: u8,
    text: &[u8],
    at: usize,
    number: u64,
) -> Result<Read<Program>, RefusedAt>
    requires { number ≤ 9000 }
    ensures { result ≡ program_told (read_program variable_count most text.now at number) }
{
    let read = lines::sheet_line(text, at);
    let Ok(line) = read else {
        return Err(refused(read, number));
    };
    let read = read_lines(variable_count, text, line.value, line.next, number + 1)?;
    if most < weight(read.value) {
        return Err(RefusedAt {
            refusal: Refusal::TooHeavy,
            line: number + line.value as u64,
        });
    }
    Ok(read)
}

// The programs, as many as the `card` line says.
fn read_programs(
    text: &[u8],
    count: u8,
    contents: Contents,
    start: usize,
    first: u64,
) -> Result<Read<Contents>, RefusedAt>
    requires { (count ≤ 8) × (first ≤ 1000) }
    ensures { result ≡ contents_told (programs_from text.now count 0 (so_far contents start first)) }
{
    let mut programs = contents.programs;
    let mut at = start;
    let mut number = first;
    for k in 0..count as usize {
        let read = read_program(contents.variable_count, 32, text, at, number)?;
        programs[k] = read.value;
        at = read.at;
        number = read.line;
    }
    Ok(Read {
        value: Contents {
            programs,
            ..contents
        },
        at,
        line: number,
    })
}

// The `var` lines, as many as the `card` line says.
fn read_vars(
    text: &[u8],
    count: u8,
    contents: Contents,
    start: usize,
    first: u64,
) -> Result<Read<Contents>, RefusedAt>
    requires { (count ≤ 64) × (first ≤ 100) }
    ensures { result ≡ contents_told (vars_from text.now count 0 (so_far contents start first)) }
{
    let mut starts = contents.starts;
    let mut at = start;
    let mut number = first;
    for k in 0..count as usize {
        let read = lines::var_line(text, at);
        let Ok(line) = read else {
            return Err(refused(read, number));
        };
        starts[k] = line.value;
        at = line.next;
        number += 1;
    }
    Ok(Read {
        value: Contents { starts, ..contents },
        at,
        line: number,
    })
}

// What follows the `card` line: the `var` lines, the programs, and nothing more.
fn read_body(
    text: &[u8],
    variable_count: u8,
    program_count: u8,
    contents: Contents,
    at: usize,
) -> Result<Read<Contents>, RefusedAt>
    requires { (variable_count ≤ 64) × (program_count ≤ 8) }
    ensures { result ≡ contents_told (then_end text.now (then_programs text.now program_count (vars_from text.now variable_count 0 (so_far contents at 2)))) }
{
    let vars = read_vars(text, variable_count, contents, at, 2)?;
    let all = read_programs(text, program_count, vars.value, vars.at, vars.line)?;
    if all.at == text.len() {
        Ok(all)
    } else {
        Err(RefusedAt {
            refusal: Refusal::Malformed,
            line: all.line,
        })
    }
}

// The contents of a text.
pub fn read_card(text: &[u8]) -> Result<Read<Contents>, RefusedAt>
    ensures { result ≡ contents_told (read_card text.now) }
{
    if 16384 < text.len() {
        return Err(RefusedAt {
            refusal: Refusal::TooLong,
            line: 0,
        });
    }
    let read = lines::card_line(text, 0);
    let Ok(line) = read else {
        return Err(refused(read, 1));
    };
    let CardNumbers {
        process_count,
        variable_count,
        program_count,
        limit,
    } = line.value;
    let contents = begun_contents(process_count, variable_count, program_count, limit);
    read_body(text, variable_count, program_count, contents, line.next)
}

// The card that a text opens to, or the refusal with its line and the empty card.
pub fn open(text: &[u8]) -> Opened
    ensures { result ≡ opened text.now }
{
    match read_card(text) {
        Ok(read) => Opened {
            card: opening::fresh(read.value),
            verdict: Ok(()),
        },
        Err(refused) => Opened {
            card: opening::fresh(no_contents()),
            verdict: Err(refused),
        },
    }
}
