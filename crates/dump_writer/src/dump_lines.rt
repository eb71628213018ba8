// The lines of a dump, put into a buffer.
ghost use Rattle.std.specs.Prelude.{◌≡◌, ◌≤◌, ◌<◌, get_or};
ghost use Rattle.grammar.specs.Writing.{Put};
ghost use Rattle.dump.specs.Binary.{binary};
ghost use Rattle.dump.specs.Dump.{var_line, vars_text, header_text, time_text, value_text, values_text, time_above, opening_text};

use grammar::writing::{put_byte, put_decimal, put_field, put_word};

// The digits of a number: those before the last are the digits of half of it.
pub(crate) fn put_binary(buffer: &mut [u8], at: usize, value: u32) -> usize
    ensures { Put buffer.old at (binary value) result buffer.new }
{
    if value < 2 {
        put_byte(buffer, at, b'0' + value as u8)
    } else {
        let next = put_binary(buffer, at, value / 2);
        put_byte(buffer, next, b'0' + (value % 2) as u8)
    }
}

// A time.
pub(crate) fn put_time(buffer: &mut [u8], at: usize, time: u64) -> usize
    ensures { Put buffer.old at (time_text time) result buffer.new }
{
    let next = put_byte(buffer, at, b'#');
    put_field(buffer, next, b'\n', time)
}

// A time, if it is above the one last told.
pub(crate) fn put_above(buffer: &mut [u8], at: usize, told: u64, time: u64) -> usize
    ensures { Put buffer.old at (time_above told time) result buffer.new }
{
    if told < time {
        return put_time(buffer, at, time);
    }
    at
}

// The value of a variable.
pub(crate) fn put_value(buffer: &mut [u8], at: usize, variable: u8, value: u32) -> usize
    requires { variable < 64 }
    ensures { Put buffer.old at (value_text variable value) result buffer.new }
{
    let i = put_byte(buffer, at, b'b');
    let j = put_binary(buffer, i, value);
    let k = put_byte(buffer, j, b' ');
    let l = put_byte(buffer, k, 33 + variable);
    put_byte(buffer, l, b'\n')
}

// The line of a variable.
fn put_var(buffer: &mut [u8], at: usize, variable: u8) -> usize
    requires { variable < 64 }
    ensures { Put buffer.old at (var_line variable) result buffer.new }
{
    let i = put_word(buffer, at, b"$var wire 32 ");
    let j = put_byte(buffer, i, 33 + variable);
    let k = put_word(buffer, j, b" v");
    let l = put_decimal(buffer, k, variable as u64);
    put_word(buffer, l, b" $end\n")
}

fn put_vars(buffer: &mut [u8], at: usize, count: u8) -> usize
    requires { count ≤ 64 }
    ensures { Put buffer.old at (vars_text count 0) result buffer.new }
{
    let mut i = at;
    for v in 0..count {
        i = put_var(buffer, i, v);
    }
    i
}

fn put_header(buffer: &mut [u8], at: usize, count: u8) -> usize
    requires { count ≤ 64 }
    ensures { Put buffer.old at (header_text count) result buffer.new }
{
    let i = put_word(buffer, at, b"$timescale 1 us $end\n");
    let j = put_word(buffer, i, b"$scope module card $end\n");
    let k = put_vars(buffer, j, count);
    let l = put_word(buffer, k, b"$upscope $end\n");
    put_word(buffer, l, b"$enddefinitions $end\n")
}

pub(crate) fn value_at(row: [u32; 64], variable: u8) -> u32
    requires { variable < 64 }
    ensures { result ≡ get_or row variable 0 }
{
    row[variable as usize]
}

// The values of every variable.
fn put_values(buffer: &mut [u8], at: usize, count: u8, row: [u32; 64]) -> usize
    requires { count ≤ 64 }
    ensures { Put buffer.old at (values_text count 0 row) result buffer.new }
{
    let mut i = at;
    for v in 0..count {
        i = put_value(buffer, i, v, value_at(row, v));
    }
    i
}

// The header, `#0` and the values of that time.
pub(crate) fn put_opening(buffer: &mut [u8], count: u8, row: [u32; 64]) -> usize
    requires { count ≤ 64 }
    ensures { Put buffer.old 0 (opening_text count row) result buffer.new }
{
    let i = put_header(buffer, 0, count);
    let j = put_time(buffer, i, 0);
    put_values(buffer, j, count, row)
}
