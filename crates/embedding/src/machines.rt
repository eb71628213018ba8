// Machines that share one processor (document 02, order 14): their allowance, their blocks and their loans in words that the caller lends.
ghost use Rattle.std.specs.Prelude.{◌≡◌};
ghost use Rattle.construction.specs.History.{Entry};
ghost use Rattle.allowance.specs.Opening.{answer_of_opened, left_by};
ghost use Rattle.allowance_words.specs.Words.{with_allowance};
ghost use Rattle.embedding.specs.Numbers.{told, status_of, numbers_of, report_numbers};
ghost use Rattle.embedding.specs.Machines.{OpensMachines, Turns, OpensCard, Asks, AsksTelling, StepsMachine, TracesMachine};

use crate::numbers::{status, status_of, tell, tell_report, tell_verdict};
use allowance::{Allowance, no_machines, open, turned};
use allowance_words::{allowance_in, put_allowance, terms_in};
use construction::answers::Refusal;
use construction::cells::Words;
use shared_processor::cards::open_card;
use shared_processor::requesting::{call, change, read, request_exit};
use shared_processor::stepping::{Stepped, Traced, step, trace};

// What opening left into the words.
fn keep_opened(allowance: &mut [u64], opened: Result<Allowance, Refusal>) -> u32
    ensures { (result ≡ status_of (answer_of_opened opened)) × (allowance.new ≡ with_allowance allowance.old (left_by opened)) }
{
    match opened {
        Ok(after) => {
            put_allowance(allowance, after);
            0
        }
        Err(refusal) => {
            put_allowance(allowance, no_machines());
            status(refusal)
        }
    }
}

// Open: T, and share and ceiling of each machine, two words each.
#[unsafe(no_mangle)]
pub extern "C" fn lace_machines_open(
    allowance: &mut [u64],
    count: u32,
    steps: u64,
    terms: &[u64],
) -> u32
    ensures { OpensMachines allowance.old count steps terms.now result allowance.new }
{
    if allowance.len() < 14 {
        return 11;
    }
    if terms.len() < 2 * (count as usize) {
        return 11;
    }
    keep_opened(allowance, open(count as u64, steps, terms_in(terms)))
}

// A new turn of the shaft.
#[unsafe(no_mangle)]
pub extern "C" fn lace_machines_turn(allowance: &mut [u64])
    ensures { Turns allowance.old allowance.new }
{
    put_allowance(allowance, turned(allowance_in(allowance)));
}

// A card text into the block of a machine. out: the line, where the text is refused.
#[unsafe(no_mangle)]
pub extern "C" fn lace_machines_open_card(
    blocks: &mut [u64],
    machine: u32,
    text: &[u8],
    out: &mut [u64],
) -> u32
    ensures { OpensCard blocks.old machine text.now out.old result blocks.new out.new }
{
    tell_verdict(out, open_card(blocks, machine, text))
}

// The allowance after a step into the words, and its answer told.
fn tell_stepped(allowance: &mut [u64], out: &mut [u64], stepped: Stepped) -> u32
    ensures { (result ≡ status_of stepped.answer) × (out.new ≡ told out.old (numbers_of stepped.answer)) × (allowance.new ≡ with_allowance allowance.old stepped.allowance) }
{
    put_allowance(allowance, stepped.allowance);
    tell(out, stepped.answer)
}

// Step. out: as of one card.
#[unsafe(no_mangle)]
pub extern "C" fn lace_machines_step(
    allowance: &mut [u64],
    blocks: &mut [u64],
    loans: &mut [u64],
    stride: u32,
    machine: u32,
    process: u32,
    out: &mut [u64],
) -> u32
    ensures { StepsMachine allowance.old stride blocks.old loans.old machine (Entry.Step process) out.old result allowance.new blocks.new loans.new out.new }
{
    let stepped = step(
        allowance_in(allowance),
        stride,
        blocks,
        loans,
        machine,
        process,
    );
    tell_stepped(allowance, out, stepped)
}

// Call.
#[unsafe(no_mangle)]
pub extern "C" fn lace_machines_call(
    allowance: &[u64],
    blocks: &mut [u64],
    machine: u32,
    process: u32,
    program: u32,
    i0: u32,
    i1: u32,
    i2: u32,
    i3: u32,
) -> u32
    ensures { Asks allowance.now blocks.old machine (Entry.Call process program (record { w0 = i0; w1 = i1; w2 = i2; w3 = i3 })) result blocks.new }
{
    let a = allowance_in(allowance);
    status_of(call(
        a,
        blocks,
        machine,
        process,
        program,
        Words {
            w0: i0,
            w1: i1,
            w2: i2,
            w3: i3,
        },
    ))
}

// Exit request (document 01: wish).
#[unsafe(no_mangle)]
pub extern "C" fn lace_machines_request_exit(
    allowance: &[u64],
    blocks: &mut [u64],
    machine: u32,
    process: u32,
) -> u32
    ensures { Asks allowance.now blocks.old machine (Entry.Exit process) result blocks.new }
{
    let a = allowance_in(allowance);
    status_of(request_exit(a, blocks, machine, process))
}

// Read (document 01: look). out: the value.
#[unsafe(no_mangle)]
pub extern "C" fn lace_machines_read(
    allowance: &[u64],
    blocks: &[u64],
    machine: u32,
    variable: u32,
    out: &mut [u64],
) -> u32
    ensures { AsksTelling allowance.now blocks.now machine (Entry.Read variable) out.old result blocks.now out.new }
{
    let a = allowance_in(allowance);
    tell(out, read(a, blocks, machine, variable))
}

// Change (document 02, order 11). out: the line, where it is refused.
#[unsafe(no_mangle)]
pub extern "C" fn lace_machines_change(
    allowance: &[u64],
    blocks: &mut [u64],
    machine: u32,
    program: u32,
    from: u64,
    text: &[u8],
    out: &mut [u64],
) -> u32
    ensures { AsksTelling allowance.now blocks.old machine (Entry.Change program from text.now) out.old result blocks.new out.new }
{
    let a = allowance_in(allowance);
    tell(out, change(a, blocks, machine, program, from, text))
}

// The allowance after a traced step into the words, and its answer and report told.
fn tell_traced(allowance: &mut [u64], out: &mut [u64], report: &mut [u64], traced: Traced) -> u32
    ensures { (result ≡ status_of traced.answer) × (out.new ≡ told out.old (numbers_of traced.answer)) × (allowance.new ≡ with_allowance allowance.old traced.allowance) × (report.new ≡ told report.old (report_numbers traced.report)) }
{
    let after = traced.allowance;
    let answer = traced.answer;
    let access = traced.report;
    put_allowance(allowance, after);
    tell_report(report, access);
    tell(out, answer)
}

// Step with its report (document 02, order 1).
#[unsafe(no_mangle)]
pub extern "C" fn lace_machines_trace(
    allowance: &mut [u64],
    blocks: &mut [u64],
    loans: &mut [u64],
    stride: u32,
    machine: u32,
    process: u32,
    out: &mut [u64],
    report: &mut [u64],
) -> u32
    ensures { TracesMachine allowance.old stride blocks.old loans.old machine (Entry.Trace process) out.old report.old result allowance.new blocks.new loans.new out.new report.new }
{
    let traced = trace(
        allowance_in(allowance),
        stride,
        blocks,
        loans,
        machine,
        process,
    );
    tell_traced(allowance, out, report, traced)
}
