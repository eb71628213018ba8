// How many words the caller lends, and the longest wait.
ghost use Rattle.std.specs.Prelude.{◌≡◌};
ghost use Rattle.wait_table.specs.Table.{wait_for};
ghost use Rattle.loan.specs.Loans.{loan_words};
ghost use Rattle.embedding.specs.Sizes.{block_words, loan_size, wait_number, wait_in};

use block::cells::{process_count, room};
use lent_card::narrow::narrow;
use loan::dictionaries::loan_words;
use wait_table::wait_for;

// The words of a block.
#[unsafe(no_mangle)]
pub extern "C" fn lace_block_words() -> usize
    ensures { result ≡ block_words }
{
    1456
}

// The words of a loan, by p and w.
#[unsafe(no_mangle)]
pub extern "C" fn lace_loan_size(processes: u32, weight: u32) -> usize
    ensures { result ≡ loan_size processes weight }
{
    if 8 < processes {
        return 0;
    }
    if 32 < weight {
        return 0;
    }
    3 * (processes as usize) * (weight as usize)
}

// The words of the loan of the card in a block.
#[unsafe(no_mangle)]
pub extern "C" fn lace_loan_words(block: &[u64]) -> usize
    ensures { result ≡ loan_words block.now }
{
    loan_words(block)
}

// The longest wait by p and w, 0 where the table has none.
#[unsafe(no_mangle)]
pub extern "C" fn lace_wait_for(processes: u32, weight: u32) -> u64
    ensures { result ≡ wait_number (wait_for processes weight) }
{
    wait_for(narrow(processes), narrow(weight)).unwrap_or(0)
}

// The longest wait on the card in a block.
#[unsafe(no_mangle)]
pub extern "C" fn lace_wait(block: &[u64]) -> u64
    ensures { result ≡ wait_in block.now }
{
    wait_for(process_count(block), room(block)).unwrap_or(0)
}
