// Each function puts a text into a buffer at a place and tells the place past the text. Only the
// places that the buffer has are written, so the bytes that do not fit fall away, and the place told
// is the same for every buffer: a text put into a buffer of no bytes tells its length. A place past
// the largest usize is told as that one, which no buffer reaches.
ghost use Rattle.std.specs.Prelude.{◌≡◌, ◌∷◌, []};
ghost use Rattle.grammar.specs.Writing.{decimal, field_text, four_text, Put};

pub fn put_byte(buffer: &mut [u8], at: usize, byte: u8) -> usize
    ensures { Put buffer.old at (byte ∷ []) result buffer.new }
{
    if at < buffer.len() {
        buffer[at] = byte;
    }
    at.saturating_add(1)
}

pub fn put_word(buffer: &mut [u8], at: usize, word: &[u8]) -> usize
    ensures { Put buffer.old at word.now result buffer.new }
{
    let mut i = at;
    for byte in word {
        i = put_byte(buffer, i, *byte);
    }
    i
}

// The digits of a number: those before the last are the digits of a tenth of it.
pub fn put_decimal(buffer: &mut [u8], at: usize, value: u64) -> usize
    ensures { Put buffer.old at (decimal value) result buffer.new }
{
    if value < 10 {
        put_byte(buffer, at, b'0' + value as u8)
    } else {
        let next = put_decimal(buffer, at, value / 10);
        put_byte(buffer, next, b'0' + (value % 10) as u8)
    }
}

pub fn put_field(buffer: &mut [u8], at: usize, separator: u8, value: u64) -> usize
    ensures { Put buffer.old at (field_text separator value) result buffer.new }
{
    let next = put_decimal(buffer, at, value);
    put_byte(buffer, next, separator)
}

pub fn put_four(buffer: &mut [u8], at: usize, a: u64, b: u64, c: u64, d: u64) -> usize
    ensures { Put buffer.old at (four_text a b c d) result buffer.new }
{
    let i = put_field(buffer, at, b',', a);
    let j = put_field(buffer, i, b',', b);
    let k = put_field(buffer, j, b',', c);
    put_field(buffer, k, b'\n', d)
}
