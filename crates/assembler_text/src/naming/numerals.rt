//! Numbers as digits.

ghost use Rattle.std.specs.Prelude.{◌≡◌, ◌≤◌, ◌<◌, ◌^◌, IfSome};
ghost use Rattle.assembler_text.specs.naming.Expressions.{numeral, value_with_digit};

/// The number that digits of this radix spell, modulo 2^32; `None` for an empty text.
pub fn numeral(radix: u32, digits: &[u8]) -> Option<u32>
    requires low { 2 ≤ radix }
    requires high { radix ≤ 36 }
    ensures { result ≡ numeral radix digits.now }
{
    if digits.is_empty() {
        return None;
    }
    let mut value = 0;
    for digit in digits {
        value = with_digit(radix, value, *digit)?;
    }
    Some(value)
}

// A number with one more digit after it.
fn with_digit(radix: u32, value: u32, digit: u8) -> Option<u32>
    requires low { 2 ≤ radix }
    requires high { radix ≤ 36 }
    ensures value { result ≡ value_with_digit radix value digit }
    ensures below { IfSome result (λ v. v < 2 ^ 32) }
{
    let digit = (digit as char).to_digit(radix)?;
    Some(value.wrapping_mul(radix).wrapping_add(digit))
}
