// The run over a schedule.
ghost use Rattle.embedding.specs.Requests.{Runs};

use crate::numbers::tell_counts;
use lent_sweep::running::run;
use loan::dictionaries::loan_words;

// Run (document 02, order 12): a step for each byte of a schedule, which names its process; one that returns is called again at once, by a table of five words
// for each process. out: how many steps were accepted, and how operations returned.
#[unsafe(no_mangle)]
pub extern "C" fn lace_run(
    block: &mut [u64],
    loan: &mut [u64],
    calls: &[u32],
    schedule: &[u8],
    out: &mut [u64],
) -> u32
    ensures { Runs block.old loan.old calls.now schedule.now out.old result block.new loan.new out.new }
{
    let is_short = loan.len() < loan_words(block);
    let counts = run(block, loan, calls, schedule);
    if is_short {
        return 11;
    }
    tell_counts(out, counts);
    0
}
