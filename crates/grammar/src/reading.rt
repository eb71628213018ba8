// Bytes, words, decimals and fields at a place of a text. Every place is allowed: past the end stands no byte. A place
// told lies within the text or at its end.
ghost use Rattle.std.specs.Prelude.{◌≡◌, true, ◌≤◌, get_or, drop};
ghost use Rattle.grammar.specs.Reading.{most, is_digit, grow, has_byte, has_word, digits, number, field, four};

use crate::{Found, Four};

// One more than the largest number that a range of document 01 lets through.
const MOST: u64 = 1_000_000_000_000_000_001;

// The byte at a place, and 0 past the end.
pub fn byte_at(text: &[u8], at: usize) -> u8
    ensures { result ≡ get_or text.now at 0 }
{
    text.get(at).copied().unwrap_or(0)
}

// Whether a byte stands at a place: none does past the end.
pub fn has_byte(text: &[u8], at: usize, byte: u8) -> bool
    ensures { result ≡ has_byte text.now at byte }
{
    at < text.len() && text[at] == byte
}

// Whether the bytes of a word stand at a place.
pub fn has_word(text: &[u8], at: usize, word: &[u8]) -> bool
    ensures { result ≡ has_word text.now at word.now }
{
    match text.get(at..) {
        Some(rest) => rest.starts_with(word),
        None => word.is_empty(),
    }
}

fn is_digit(byte: u8) -> bool
    ensures { result ≡ is_digit byte }
{
    byte.is_ascii_digit()
}

// A number with one more digit, kept at MOST once it is larger.
fn grown(value: u64, digit: u8) -> u64
    requires { (value ≤ most) × (is_digit digit ≡ true) }
    ensures { result ≡ grow value digit }
{
    let more = value * 10 + (digit - b'0') as u64;
    more.min(MOST)
}

// The number that the digits from a place on make, 0 where there are none.
fn digits_at(text: &[u8], at: usize) -> Found<u64>
    ensures { result ≡ digits at 0 (drop at text.now) }
{
    let mut value: u64 = 0;
    for i in at..text.len() {
        let byte = text[i];
        if !is_digit(byte) {
            return Found { value, next: i };
        }
        value = grown(value, byte);
    }
    Found {
        value,
        next: at.max(text.len()),
    }
}

// The decimal at a place.
#[tactic(auto, unfolding(crate::specs::Reading::number))]
pub fn number_at(text: &[u8], at: usize) -> Option<Found<u64>>
    ensures { result ≡ number text.now at }
{
    let first = byte_at(text, at);
    if first == b'0' {
        return Some(Found {
            value: 0,
            next: at + 1,
        });
    }
    if is_digit(first) {
        Some(digits_at(text, at))
    } else {
        None
    }
}

// The decimal at a place, ended by a separator that belongs to it.
#[tactic(auto, unfolding(crate::specs::Reading::field))]
pub fn field_at(text: &[u8], separator: u8, at: usize) -> Option<Found<u64>>
    ensures { result ≡ field text.now separator at }
{
    let Found { value, next } = number_at(text, at)?;
    if has_byte(text, next, separator) {
        Some(Found {
            value,
            next: next + 1,
        })
    } else {
        None
    }
}

// The last four numbers of a line.
#[tactic(auto, unfolding(crate::specs::Reading::four))]
pub fn four_at(text: &[u8], at: usize) -> Option<Found<Four>>
    ensures { result ≡ four text.now at }
{
    let a = field_at(text, b',', at)?;
    let b = field_at(text, b',', a.next)?;
    let c = field_at(text, b',', b.next)?;
    let d = field_at(text, b'\n', c.next)?;
    Some(Found {
        value: Four {
            a: a.value,
            b: b.value,
            c: c.value,
            d: d.value,
        },
        next: d.next,
    })
}
