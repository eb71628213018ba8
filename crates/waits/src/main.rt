// Prints the table of the longest wait (document 02, order 3): a line for each p from 1 to 8, with w from 0 to 32. The text is that of the
// crate wait_table; only writing the bytes is left to do here.
#![tactic(auto)]

use host::{buffer, fail, print};

// A program has no exit status, so what cannot be written is told on standard error.
fn main(rt: HostRuntime) {
    let mut text = buffer();
    let length = wait_table::put_table(&mut text, 0);
    if let Err(error) = print(&rt, &text, length) {
        fail(&rt, "waits: the table could not be written", &error);
    }
}
