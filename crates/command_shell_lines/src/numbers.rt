//! Numbers of a script, in decimal or after `&` in hexadecimal.

ghost use Rattle.std.specs.Prelude.{◌≡◌, ◌≤◌};
ghost use Rattle.command_shell_lines.specs.Numbers.{digits_number, script_number, script_number_with_digit};

/// The number that a word spells: decimal digits, or `&` and hexadecimal digits in either case.
/// None for a word without digits, with anything else in it, or of a value of 2^32 and more.
pub fn number_of(word: &[u8]) -> Option<u32>
    ensures { result ≡ script_number word.now }
{
    match word {
        [] => None,
        [b'&', digits @ ..] => number_in(digits, 16),
        _ => number_in(word, 10),
    }
}

// The number that digits of this radix spell.
fn number_in(digits: &[u8], radix: u32) -> Option<u32>
    requires low { 2 ≤ radix }
    requires high { radix ≤ 36 }
    ensures { result ≡ digits_number radix digits.now }
{
    if digits.is_empty() {
        return None;
    }
    let mut value = 0;
    for digit in digits {
        value = with_digit(value, *digit, radix)?;
    }
    Some(value)
}

// One more digit after a number, if that is still below 2^32.
fn with_digit(value: u32, digit: u8, radix: u32) -> Option<u32>
    requires low { 2 ≤ radix }
    requires high { radix ≤ 36 }
    ensures { result ≡ script_number_with_digit radix value digit }
{
    let digit = (digit as char).to_digit(radix)?;
    value.checked_mul(radix)?.checked_add(digit)
}
