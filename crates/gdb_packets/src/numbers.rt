//! The numbers of a packet.

ghost use Rattle.std.specs.Prelude.{◌≡◌};
ghost use Rattle.gdb_packets.specs.Digits.{digit_value};
ghost use Rattle.gdb_packets.specs.Numbers.{packet_number, with_digit as with_digit_shown};

use crate::digits::digit_value;

/// The number that a text spells: hexadecimal digits in either case, one at least, with a value below
/// 2^32.
#[tactic(auto, using(crate::proofs::NumberLemmas::number_steps))]
pub(crate) fn number_of(text: &[u8]) -> Option<u32>
    ensures { result ≡ packet_number text.now }
{
    if text.is_empty() {
        return None;
    }
    let mut value = 0;
    for digit in text {
        value = with_digit(value, digit_value(*digit))?;
    }
    Some(value)
}

// A number with one more digit behind it, where it stays below 2^32.
fn with_digit(value: u32, digit: Option<u8>) -> Option<u32>
    ensures { result ≡ with_digit_shown value digit }
{
    let digit = digit?;
    value.checked_mul(16)?.checked_add(u32::from(digit))
}
