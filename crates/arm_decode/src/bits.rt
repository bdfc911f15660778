//! A field of an instruction, as a number of so many bits.

ghost use Rattle.std.specs.Prelude.{◌≡◌, ℕ, ◌<◌, ◌^◌};
ghost use Rattle.profile.specs.Word.{field};

use crate::fields::field_of;
use std::marker::Model;

/// A field of `SIZE` bits of an instruction: a number below 2 to the power of `SIZE`.
#[derive(Clone, Copy)]
pub struct Bits<const SIZE: u32> {
    number: u32,
}

impl<const SIZE: u32> Model for Bits<SIZE> {
    ghost Value = { ℕ };

    ghost view = { λ b. b.number };

    ghost invariant = { λ b. b.number < 2 ^ SIZE };

    ghost inverse = { λ n. record { number = n } };
}

impl<const SIZE: u32> Bits<SIZE> {
    /// The field that holds this number.
    pub fn new(number: u32) -> Bits<SIZE>
        requires { number < 2 ^ SIZE }
        ensures { result ≡ number }
    {
        Bits { number }
    }

    /// The field of a word from bit `low` on.
    #[inline(always)]
    pub fn in_word(word: u32, low: u32) -> Bits<SIZE>
        requires low_inside { low < 32 }
        requires size_inside { SIZE < 32 }
        ensures { result ≡ field word low SIZE }
    {
        Bits::new(field_of(word, low, SIZE))
    }

    /// The number in the field.
    pub fn number(self) -> u32
        ensures value { result ≡ self.entry }
        ensures below { result < 2 ^ SIZE }
    {
        self.number
    }
}
