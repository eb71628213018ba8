// The requests that look at no loan: call, exit request, read and change.
ghost use Rattle.std.specs.Prelude.{[]};
ghost use Rattle.construction.specs.History.{Entry};
ghost use Rattle.lent_runs.specs.Runs.{untraced};
ghost use Rattle.shared_processor.specs.Requests.{Performs};

use crate::places::block_of;
use allowance::Allowance;
use construction::answers::{Answer, Refusal};
use construction::cells::Words;

// A call to machine m.
pub fn call(
    a: Allowance,
    blocks: &mut [u64],
    m: u32,
    process: u32,
    program: u32,
    inputs: Words,
) -> Answer
    ensures { Performs a 0 blocks.old [] m (Entry.Call process program inputs) (untraced result) a blocks.new [] }
{
    let Some(block) = block_of(a, m, blocks.len()) else {
        return Answer::Refused(Refusal::NoProcess);
    };
    lent_card::requesting::call(
        &mut blocks[block.start..block.end],
        process,
        program,
        inputs,
    )
}

// An exit request to machine m.
pub fn request_exit(a: Allowance, blocks: &mut [u64], m: u32, process: u32) -> Answer
    ensures { Performs a 0 blocks.old [] m (Entry.Exit process) (untraced result) a blocks.new [] }
{
    let Some(block) = block_of(a, m, blocks.len()) else {
        return Answer::Refused(Refusal::NoProcess);
    };
    lent_card::requesting::request_exit(&mut blocks[block.start..block.end], process)
}

// A read of machine m.
pub fn read(a: Allowance, blocks: &[u64], m: u32, variable: u32) -> Answer
    ensures { Performs a 0 blocks.now [] m (Entry.Read variable) (untraced result) a blocks.now [] }
{
    let Some(block) = block_of(a, m, blocks.len()) else {
        return Answer::Refused(Refusal::NoProcess);
    };
    lent_card::requesting::read(&blocks[block.start..block.end], variable)
}

// A change of a program of machine m, which brings its text.
pub fn change(
    a: Allowance,
    blocks: &mut [u64],
    m: u32,
    program: u32,
    from: u64,
    text: &[u8],
) -> Answer
    ensures { Performs a 0 blocks.old [] m (Entry.Change program from text.now) (untraced result) a blocks.new [] }
{
    let Some(block) = block_of(a, m, blocks.len()) else {
        return Answer::RefusedAt {
            refusal: Refusal::NoProcess,
            line: 0,
        };
    };
    lent_card::changing::change(&mut blocks[block.start..block.end], program, from, text)
}
