//! Words written in hexadecimal.

ghost use Rattle.std.specs.Prelude.{◌≡◌, ◌<◌, ◌≤◌, List, ℕ, length, drop, ◌-◌};
ghost use Rattle.profile.specs.Digits.{hex_digit_at, hex_word, hex_number, without_zeros};

use std::marker::Model;

/// The text of a number in hexadecimal, in capitals.
#[derive(Drop)]
pub struct HexText {
    digits: [u8; 8],
    start: usize,
}

impl Model for HexText {
    ghost Value = { List ℕ };

    ghost view = { λ t. drop t.start t.digits };

    ghost invariant = { λ t. t.start ≤ 8 };
}

impl HexText {
    /// All eight digits of a word.
    #[tactic(auto, unfolding(crate::specs::Digits::hex_word))]
    pub fn word(word: u32) -> HexText
        ensures { result ≡ hex_word word }
    {
        HexText {
            digits: digits_of(word),
            start: 0,
        }
    }

    /// The digits without leading zeros; 0 is one digit.
    #[tactic(auto, unfolding(crate::specs::Digits::hex_number))]
    pub fn number(word: u32) -> HexText
        ensures { result ≡ hex_number word }
    {
        let digits = digits_of(word);
        let mut start = 0;
        while start < 7 && digits[start] == b'0' {
            start += 1;
        }
        HexText { digits, start }
    }

    /// The text's bytes.
    pub fn as_slice(&self) -> &[u8]
        ensures { result.now ≡ self.now }
    {
        &self.digits[self.start..]
    }
}

#[tactic(auto, unfolding(crate::specs::Digits::hex_word))]
fn digits_of(word: u32) -> [u8; 8]
    ensures { result ≡ hex_word word }
{
    [
        digit_at(word, 28),
        digit_at(word, 24),
        digit_at(word, 20),
        digit_at(word, 16),
        digit_at(word, 12),
        digit_at(word, 8),
        digit_at(word, 4),
        digit_at(word, 0),
    ]
}

fn digit_at(word: u32, low: u32) -> u8
    requires { low < 32 }
    ensures { result ≡ hex_digit_at word low }
{
    let digit = (word >> low) & 15;
    if digit < 10 {
        digit as u8 + b'0'
    } else {
        digit as u8 + 55
    }
}
