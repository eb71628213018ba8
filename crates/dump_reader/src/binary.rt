// Binary numbers at a place of a text: every place is allowed, and past the end stands no byte.
ghost use Rattle.std.specs.Prelude.{◌≡◌, true, ◌≤◌, drop};
ghost use Rattle.dump.specs.Binary.{over, is_bit, grow_bit, bits, bits_at};

use grammar::Found;
use grammar::reading::byte_at;

// One more than the largest number of 32 bits.
const OVER: u64 = 4_294_967_296;

fn is_bit(byte: u8) -> bool
    ensures { result ≡ is_bit byte }
{
    matches!(byte, b'0' | b'1')
}

fn wide(byte: u8) -> u64
    ensures { result ≡ byte }
{
    byte as u64
}

// A number with one more digit, kept at OVER once it is larger.
fn grown(value: u64, digit: u8) -> u64
    requires { (value ≤ over) × (is_bit digit ≡ true) }
    ensures { result ≡ grow_bit value digit }
{
    let more = value * 2 + wide(digit - b'0');
    if OVER < more { OVER } else { more }
}

// The number that the digits from a place on make, 0 where there are none.
fn bits_from(text: &[u8], at: usize) -> Found<u64>
    ensures { result ≡ bits at 0 (drop at text.now) }
{
    let mut value: u64 = 0;
    for i in at..text.len() {
        let byte = text[i];
        if !is_bit(byte) {
            return Found { value, next: i };
        }
        value = grown(value, byte);
    }
    Found {
        value,
        next: at.max(text.len()),
    }
}

// The binary number at a place.
#[tactic(auto, unfolding(dump::specs::Binary::bits_at))]
pub(crate) fn bits_at(text: &[u8], at: usize) -> Option<Found<u64>>
    ensures { result ≡ bits_at text.now at }
{
    match byte_at(text, at) {
        b'0' => Some(Found {
            value: 0,
            next: at + 1,
        }),
        b'1' => Some(bits_from(text, at)),
        _ => None,
    }
}
