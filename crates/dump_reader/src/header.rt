// The header and `#0`: each line is one that the writer writes there.
ghost use Rattle.std.specs.Prelude.{◌≡◌, ◌≤◌, ◌<◌, ◌+◌, length};
ghost use Rattle.grammar.specs.Reading.{has_word};
ghost use Rattle.grammar.specs.Writing.{decimal};
ghost use Rattle.dump.specs.Dump.{var_line};
ghost use Rattle.dump.specs.Reading.{header_refused, then_word, then_vars, read_header};

use construction::answers::Refusal;
use construction::texts::RefusedAt;
use dump::Header;
use grammar::reading::{has_byte, has_word};

fn header_refused(line: u64) -> Header
    ensures { result ≡ header_refused line }
{
    Header {
        verdict: Err(RefusedAt {
            refusal: Refusal::Malformed,
            line,
        }),
        count: 0,
        at: 0,
        line,
    }
}

// A line that is these bytes.
fn then_word(text: &[u8], word: &[u8], header: Header) -> Header
    requires { (0 < length word.now) × (header.line ≤ 100) }
    ensures { result ≡ then_word text.now word.now header }
{
    let Ok(()) = header.verdict else {
        return header;
    };
    let at = header.at;
    let line = header.line;
    if !has_word(text, at, word) {
        return header_refused(line);
    }
    Header {
        verdict: Ok(()),
        count: header.count,
        at: at + word.len(),
        line: line + 1,
    }
}

// How many digits the number of a variable has.
fn digits(variable: u8) -> usize
    requires { variable < 64 }
    ensures { result ≡ length (decimal variable) }
{
    if variable < 10 { 1 } else { 2 }
}

// The number of a variable.
fn has_number(text: &[u8], at: usize, variable: u8) -> bool
    requires { variable < 64 }
    ensures { result ≡ has_word text.now at (decimal variable) }
{
    if variable < 10 {
        return has_byte(text, at, b'0' + variable);
    }
    if !has_byte(text, at, b'0' + variable / 10) {
        return false;
    }
    has_byte(text, at + 1, b'0' + variable % 10)
}

// The line of a variable.
fn has_var(text: &[u8], at: usize, variable: u8) -> bool
    requires { variable < 64 }
    ensures { result ≡ has_word text.now at (var_line variable) }
{
    if !has_word(text, at, b"$var wire 32 ") {
        return false;
    }
    if !has_byte(text, at + 13, 33 + variable) {
        return false;
    }
    if !has_word(text, at + 14, b" v") {
        return false;
    }
    if !has_number(text, at + 16, variable) {
        return false;
    }
    has_word(text, at + 16 + digits(variable), b" $end\n")
}

// The variables, at most 64 of them.
fn then_vars(text: &[u8], header: Header) -> Header
    requires { (header.count ≡ 0) × (header.line ≤ 10) }
    ensures { result ≡ then_vars text.now header }
{
    let Ok(()) = header.verdict else {
        return header;
    };
    let mut at = header.at;
    let mut line = header.line;
    for count in 0..64 {
        if !has_var(text, at, count) {
            return Header {
                verdict: Ok(()),
                count,
                at,
                line,
            };
        }
        at = at + 22 + digits(count);
        line += 1;
    }
    Header {
        verdict: Ok(()),
        count: 64,
        at,
        line,
    }
}

// The header and `#0`.
pub fn read_header(text: &[u8]) -> Header
    ensures { result ≡ read_header text.now }
{
    let first = Header {
        verdict: Ok(()),
        count: 0,
        at: 0,
        line: 1,
    };
    let timescale = then_word(text, b"$timescale 1 us $end\n", first);
    let scope = then_word(text, b"$scope module card $end\n", timescale);
    let vars = then_vars(text, scope);
    let upscope = then_word(text, b"$upscope $end\n", vars);
    let definitions = then_word(text, b"$enddefinitions $end\n", upscope);
    then_word(text, b"#0\n", definitions)
}
