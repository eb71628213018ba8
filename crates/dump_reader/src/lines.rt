// One line after the header: a time, a value, or neither.
ghost use Rattle.std.specs.Prelude.{◌≡◌, ◌≤◌, length};
ghost use Rattle.grammar.specs.Reading.{field};
ghost use Rattle.dump.specs.Binary.{bits_at};
ghost use Rattle.dump.specs.Reading.{time_of, has_code, value_of, line_at};

use crate::binary::bits_at;
use dump::DumpLine;
use grammar::Found;
use grammar::reading::{byte_at, field_at, has_byte};

const OVER: u64 = 4_294_967_296;

// A space, a code and the line's end.
fn has_code(text: &[u8], at: usize) -> bool
    requires { at ≤ length text.now }
    ensures { result ≡ has_code text.now at }
{
    has_byte(text, at, b' ') && 33 <= byte_at(text, at + 1) && has_byte(text, at + 2, b'\n')
}

// The number, a space and a code.
fn value_line(text: &[u8], at: usize) -> DumpLine
    ensures { result ≡ value_of text.now (bits_at text.now at) }
{
    let Some(Found { value, next }) = bits_at(text, at) else {
        return DumpLine::Malformed;
    };
    if OVER <= value || !has_code(text, next) {
        return DumpLine::Malformed;
    }
    DumpLine::Value {
        variable: byte_at(text, next + 1) - 33,
        value: value as u32,
        next: next + 3,
    }
}

// The count.
fn time_line(text: &[u8], at: usize) -> DumpLine
    ensures { result ≡ time_of (field text.now 10 at) }
{
    let Some(Found { value, next }) = field_at(text, b'\n', at) else {
        return DumpLine::Malformed;
    };
    DumpLine::Time { time: value, next }
}

// The line at a place.
pub fn line_at(text: &[u8], at: usize) -> DumpLine
    ensures { result ≡ line_at text.now at }
{
    if has_byte(text, at, b'#') {
        return time_line(text, at + 1);
    }
    if has_byte(text, at, b'b') {
        return value_line(text, at + 1);
    }
    DumpLine::Malformed
}
