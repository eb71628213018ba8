// An argument of a program: a decimal of 64 bits, as a card text writes one, and nothing else. It rests on the crate grammar (digits). The one public
// function is total, and its contract gives its whole result.
#![tactic(auto)]

ghost use Rattle.std.specs.Prelude.{◌≡◌};
ghost use Rattle.arguments.specs.Arguments.{fits, begins_wrong, argument_of};

// Whether a byte is a digit that can follow a number.
fn is_fit(value: u64, byte: u8) -> bool
    ensures { result ≡ fits value byte }
{
    byte.is_ascii_digit() && value <= (u64::MAX - (byte - b'0') as u64) / 10
}

// Whether a text is no decimal by its first bytes: there are none, or there is a leading zero.
fn begins_wrong(text: &[u8]) -> bool
    ensures { result ≡ begins_wrong text.now }
{
    text.is_empty() || (text[0] == b'0' && 1 < text.len())
}

// The decimal that a whole text is.
pub fn decimal_of(text: &[u8]) -> Option<u64>
    ensures { result ≡ argument_of text.now }
{
    if begins_wrong(text) {
        return None;
    }
    let mut value: u64 = 0;
    for byte in text {
        if !is_fit(value, *byte) {
            return None;
        }
        value = value * 10 + (*byte - b'0') as u64;
    }
    Some(value)
}
