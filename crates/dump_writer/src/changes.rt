// The changes between two rows, put into a buffer: a time is told before the first of them.
ghost use Rattle.std.specs.Prelude.{◌<◌, ◌≤◌};
ghost use Rattle.dump.specs.Dump.{changes_at};
ghost use Rattle.dump_writer.specs.Courses.{Tells, change_of};

use crate::Told;
use crate::dump_lines::{put_above, put_value, value_at};

// One variable: nothing where its value stays.
fn put_change(
    buffer: &mut [u8],
    at: usize,
    told: u64,
    time: u64,
    variable: u8,
    before: u32,
    after: u32,
) -> Told
    requires { variable < 64 }
    ensures { Tells buffer.old at told (change_of time variable before after) result buffer.new }
{
    if before == after {
        return Told { at, time: told };
    }
    let i = put_above(buffer, at, told, time);
    let j = put_value(buffer, i, variable, after);
    Told { at: j, time }
}

// All variables.
pub(crate) fn put_changes(
    buffer: &mut [u8],
    at: usize,
    told: u64,
    time: u64,
    count: u8,
    before: [u32; 64],
    after: [u32; 64],
) -> Told
    requires { count ≤ 64 }
    ensures { Tells buffer.old at told (changes_at time count 0 before after) result buffer.new }
{
    let mut now = Told { at, time: told };
    for v in 0..count {
        now = put_change(
            buffer,
            now.at,
            now.time,
            time,
            v,
            value_at(before, v),
            value_at(after, v),
        );
    }
    now
}
