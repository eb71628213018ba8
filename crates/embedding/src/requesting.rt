// The requests: a card in a block and a loan that the caller lends.
ghost use Rattle.embedding.specs.Requests.{Opens, Calls, Exits, Steps, Traces, Reads, Changes, Writes};

use crate::numbers::{status_of, tell, tell_both, tell_verdict, tell_written};
use construction::cells::Words;
use lent_card::changing::change;
use lent_card::requesting::{call, read, request_exit};
use lent_steps::stepping::step;
use lent_steps::tracing::trace;

// Open: a card text into a block. out: the line, where the text is refused.
#[unsafe(no_mangle)]
pub extern "C" fn lace_open(text: &[u8], block: &mut [u64], out: &mut [u64]) -> u32
    ensures { Opens text.now block.old out.old result block.new out.new }
{
    tell_verdict(out, lent_text::open(text, block))
}

// Call: process `process` takes up program `program` with four inputs.
#[unsafe(no_mangle)]
pub extern "C" fn lace_call(
    block: &mut [u64],
    process: u32,
    program: u32,
    i0: u32,
    i1: u32,
    i2: u32,
    i3: u32,
) -> u32
    ensures { Calls block.old process program (record { w0 = i0; w1 = i1; w2 = i2; w3 = i3 }) result block.new }
{
    status_of(call(
        block,
        process,
        program,
        Words {
            w0: i0,
            w1: i1,
            w2: i2,
            w3: i3,
        },
    ))
}

// Exit request (document 01: wish).
#[unsafe(no_mangle)]
pub extern "C" fn lace_request_exit(block: &mut [u64], process: u32) -> u32
    ensures { Exits block.old process result block.new }
{
    status_of(request_exit(block, process))
}

// Step. out: the kind, the operation's own steps, its gate number and its outputs.
#[unsafe(no_mangle)]
pub extern "C" fn lace_step(
    block: &mut [u64],
    loan: &mut [u64],
    process: u32,
    out: &mut [u64],
) -> u32
    ensures { Steps block.old loan.old process out.old result block.new loan.new out.new }
{
    tell(out, step(block, loan, process))
}

// Step with its report (document 02, order 1).
#[unsafe(no_mangle)]
pub extern "C" fn lace_trace(
    block: &mut [u64],
    loan: &mut [u64],
    process: u32,
    out: &mut [u64],
    report: &mut [u64],
) -> u32
    ensures { Traces block.old loan.old process out.old report.old result block.new loan.new out.new report.new }
{
    tell_both(out, report, trace(block, loan, process))
}

// Read (document 01: look). out: the value.
#[unsafe(no_mangle)]
pub extern "C" fn lace_read(block: &[u64], variable: u32, out: &mut [u64]) -> u32
    ensures { Reads block.now variable out.old result out.new }
{
    tell(out, read(block, variable))
}

// Change (document 02, order 11): program `program` has this text from gate number `from` on. out: the line, where it is refused.
#[unsafe(no_mangle)]
pub extern "C" fn lace_change(
    block: &mut [u64],
    program: u32,
    from: u64,
    text: &[u8],
    out: &mut [u64],
) -> u32
    ensures { Changes block.old program from text.now out.old result block.new out.new }
{
    tell(out, change(block, program, from, text))
}

// Write: the text that the card was opened from. out: its length.
#[unsafe(no_mangle)]
pub extern "C" fn lace_write(block: &[u64], text: &mut [u8], out: &mut [u64]) -> u32
    ensures { Writes block.now text.old out.old result text.new out.new }
{
    tell_written(out, lent_text::write(block, text))
}
