//! Hexadecimal digits.

ghost use Rattle.std.specs.Prelude.{◌≡◌, ◌<◌};
ghost use Rattle.gdb_packets.specs.Digits.{digit as digit_shown, digit_value as value_shown};

/// The digit of a value below 16, in small letters.
pub(crate) fn digit(value: u8) -> u8
    requires { value < 16 }
    ensures { result ≡ digit_shown value }
{
    if value < 10 { value + 48 } else { value + 87 }
}

/// The value of a digit in either case.
pub(crate) fn digit_value(digit: u8) -> Option<u8>
    ensures { result ≡ value_shown digit }
{
    match digit {
        b'0'..=b'9' => Some(digit - 48),
        b'a'..=b'f' => Some(digit - 87),
        b'A'..=b'F' => Some(digit - 55),
        _ => None,
    }
}
