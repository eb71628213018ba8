// The values of a dump in decimal, a line for each time, put into a buffer.
ghost use Rattle.std.specs.Prelude.{◌≡◌, min};
ghost use Rattle.grammar.specs.Writing.{Put};
ghost use Rattle.dump_reader.specs.Rows.{is_line, row_text, first_scan, ended_text, kept_with, PutsRows};

use crate::header::read_header;
use crate::lines::line_at;
use crate::taking::{past, time_after};
use crate::{Scan, Shown};
use dump::DumpLine;
use grammar::writing::{put_byte, put_decimal};

fn few(count: u8) -> u8
    ensures { result ≡ min 64 count }
{
    count.min(64)
}

// A step and the values after it, parted by commas.
pub fn put_row(buffer: &mut [u8], at: usize, count: u8, step: u64, values: &[u32; 64]) -> usize
    ensures { Put buffer.old at (row_text count step values.now) result buffer.new }
{
    let all = few(count);
    let mut i = put_decimal(buffer, at, step);
    for v in 0..all {
        let j = put_byte(buffer, i, b',');
        i = put_decimal(buffer, j, values[v as usize] as u64);
    }
    put_byte(buffer, i, b'\n')
}

// At a time the row of the time before is put.
fn put_ended(
    buffer: &mut [u8],
    at: usize,
    count: u8,
    time: u64,
    values: &[u32; 64],
    line: DumpLine,
) -> usize
    ensures { Put buffer.old at (ended_text count time values.now line) result buffer.new }
{
    match line {
        DumpLine::Time { .. } => put_row(buffer, at, count, time, values),
        DumpLine::Value { .. } | DumpLine::Malformed => at,
    }
}

// A value becomes that of its variable, if there is room for it.
fn keep_value(values: &mut [u32; 64], line: DumpLine)
    ensures { values.new ≡ kept_with values.old line }
{
    if let DumpLine::Value {
        variable,
        value,
        ..
    } = line
    {
        if variable < 64 {
            values[variable as usize] = value;
        }
    }
}

fn is_line(line: DumpLine) -> bool
    ensures { result ≡ is_line line }
{
    !matches!(line, DumpLine::Malformed)
}

// Past the header and `#0`.
pub fn first_scan(text: &[u8]) -> Scan
    ensures { result ≡ first_scan text.now }
{
    Scan {
        at: read_header(text).at,
        time: 0,
        values: [0; 64],
    }
}

// Puts the rows from a scan on, as many whole ones as fit into the buffer; the last row, which no line ends, is left to `put_row`.
pub fn put_rows(text: &[u8], count: u8, start: Scan, buffer: &mut [u8]) -> Shown
    ensures { PutsRows text.now count start buffer.old result buffer.new }
{
    let mut values = start.values;
    let mut time = start.time;
    let mut at = start.at;
    let mut length: usize = 0;
    let mut line = line_at(text, at);
    // As in `read_lines`, the place moves by what a line turns out to be.
    while is_line(line) {
        let end = put_ended(buffer, length, count, time, &values, line);
        if buffer.len() < end {
            let scan = Scan { at, time, values };
            return Shown { scan, length };
        }
        length = end;
        keep_value(&mut values, line);
        time = time_after(time, line);
        at = past(line);
        line = line_at(text, at);
    }
    let scan = Scan { at, time, values };
    Shown { scan, length }
}
