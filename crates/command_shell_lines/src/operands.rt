//! What the words after a command stand for.

ghost use Rattle.std.specs.Prelude.{◌≡◌, ◌≤◌, ◌<◌, ◌%◌, ◌^◌, ℕ};
ghost use Rattle.command_shell_lines.specs.Operands.{cpu_register_named, word_address, origin_of, count_up_to};

use crate::numbers::number_of;
use assembler_text::ADDRESS_LIMIT;
use std::marker::Model;

/// A register that a script can set: R0 to R14.
#[derive(Clone, Copy)]
pub struct RegisterNumber {
    number: u32,
}

impl Model for RegisterNumber {
    ghost Value = { ℕ };

    ghost view = { λ r. r.number };

    ghost invariant = { λ r. r.number ≤ 14 };

    ghost inverse = { λ n. record { number = n } };
}

impl RegisterNumber {
    /// The register of a number from 0 to 14.
    pub fn new(number: u32) -> RegisterNumber
        requires { number ≤ 14 }
        ensures { result ≡ number }
    {
        RegisterNumber { number }
    }

    /// The register of that name, `R0` to `R14`.
    pub fn named(word: &[u8]) -> Option<RegisterNumber>
        ensures { result ≡ cpu_register_named word.now }
    {
        match word {
            [b'R', digit @ b'0'..=b'9'] => Some(RegisterNumber {
                number: u32::from(*digit - b'0'),
            }),
            [b'R', b'1', digit @ b'0'..=b'4'] => Some(RegisterNumber {
                number: 10 + u32::from(*digit - b'0'),
            }),
            _ => None,
        }
    }

    /// Its number, at most 14.
    pub fn number(self) -> u32
        ensures value { result ≡ self }
        ensures range { result ≤ 14 }
    {
        self.number
    }
}

/// The address of a word: a multiple of 4.
#[derive(Clone, Copy)]
pub struct WordAddress {
    address: u32,
}

impl Model for WordAddress {
    ghost Value = { ℕ };

    ghost view = { λ a. a.address };

    ghost invariant = { λ a. a.address % 4 ≡ 0 };

    ghost inverse = { λ n. record { address = n } };
}

impl WordAddress {
    /// The address that a number spells, if it is a multiple of 4.
    pub fn spelled(word: &[u8]) -> Option<WordAddress>
        ensures { result ≡ word_address word.now }
    {
        let address = number_of(word)?;
        if address % 4 != 0 {
            return None;
        }
        Some(WordAddress { address })
    }

    /// The address as a number.
    pub fn address(self) -> u32
        ensures value { result ≡ self }
        ensures whole { result % 4 ≡ 0 }
    {
        self.address
    }
}

/// Where a program can be assembled: a multiple of 4 below 2^26.
#[derive(Clone, Copy)]
pub struct Origin {
    address: u32,
}

impl Model for Origin {
    ghost Value = { ℕ };

    ghost view = { λ o. o.address };

    ghost invariant = { λ o. (o.address % 4 ≡ 0) × (o.address < 2 ^ 26) };

    ghost inverse = { λ n. record { address = n } };
}

impl Origin {
    /// The origin of that number.
    pub fn new(address: u32) -> Origin
        requires aligned { address % 4 ≡ 0 }
        requires inside { address < 2 ^ 26 }
        ensures { result ≡ address }
    {
        Origin { address }
    }

    /// The origin that a number spells, if it is one.
    pub fn spelled(word: &[u8]) -> Option<Origin>
        ensures { result ≡ origin_of word.now }
    {
        let address = WordAddress::spelled(word)?.address();
        if address >= ADDRESS_LIMIT {
            return None;
        }
        Some(Origin { address })
    }

    /// The origin as a number.
    pub fn address(self) -> u32
        ensures value { result ≡ self }
        ensures whole { result % 4 ≡ 0 }
        ensures below { result < 2 ^ 26 }
    {
        self.address
    }
}

/// The number that a word spells, if it is from 1 to `most`.
pub fn count_up_to(most: u32, word: &[u8]) -> Option<u32>
    ensures { result ≡ count_up_to most word.now }
{
    let count = number_of(word)?;
    if count == 0 || count > most {
        return None;
    }
    Some(count)
}
