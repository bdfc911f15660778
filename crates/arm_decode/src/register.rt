//! The registers, and the list of registers of a block transfer.

ghost use Rattle.std.specs.Prelude.{◌≡◌, ◌==◌, ℕ, ◌<◌, ◌^◌};
ghost use Rattle.profile.specs.Word.{bit_of, field};

use crate::fields::field_of;
use std::marker::Model;

/// One of the registers R0 to R15. R15 holds the program counter.
#[derive(Clone, Copy, Default)]
pub struct Register {
    number: u8,
}

impl Model for Register {
    ghost Value = { ℕ };

    ghost view = { λ r. r.number };

    ghost invariant = { λ r. r.number < 16 };

    ghost inverse = { λ n. record { number = n } };
}

impl Register {
    /// The register of this number.
    pub fn new(number: u8) -> Register
        requires { number < 16 }
        ensures { result ≡ number }
    {
        Register { number }
    }

    /// The register that the four bits of a word from `low` on name.
    #[inline(always)]
    pub(crate) fn in_word(word: u32, low: u32) -> Register
        requires { low < 32 }
        ensures { result ≡ field word low 4 }
    {
        Register::new(field_of(word, low, 4) as u8)
    }

    /// The register's number, 0 to 15.
    pub fn number(self) -> u32
        ensures value { result ≡ self }
        ensures below { result < 16 }
    {
        u32::from(self.number)
    }

    /// Whether this is R15, the program counter.
    pub fn is_pc(self) -> bool
        ensures { result ≡ (self == 15) }
    {
        self.number == 15
    }
}

/// The registers of a block transfer, as 16 bits: bit n is set where Rn is in the list.
#[derive(Clone, Copy)]
pub struct RegisterList {
    bits: u16,
}

impl Model for RegisterList {
    ghost Value = { ℕ };

    ghost view = { λ l. l.bits };

    ghost inverse = { λ n. record { bits = n } };
}

impl RegisterList {
    /// The list that these 16 bits are.
    pub fn new(bits: u16) -> RegisterList
        ensures { result ≡ bits }
    {
        RegisterList { bits }
    }

    /// The list of a word, its bits 15 to 0.
    #[inline(always)]
    pub(crate) fn in_word(word: u32) -> RegisterList
        ensures { result ≡ field word 0 16 }
    {
        RegisterList::new(field_of(word, 0, 16) as u16)
    }

    /// The list's 16 bits.
    pub fn bits(self) -> u32
        ensures value { result ≡ self }
        ensures below { result < 2 ^ 16 }
    {
        u32::from(self.bits)
    }

    /// Whether a register is in the list.
    pub fn contains(self, register: Register) -> bool
        ensures { result ≡ bit_of self register }
    {
        (self.bits() >> register.number()) & 1 == 1
    }

    /// Whether R15 is in the list.
    pub fn contains_pc(self) -> bool
        ensures { result ≡ bit_of self 15 }
    {
        self.bits >= 0x8000
    }

    /// Whether no register is in the list.
    pub fn is_empty(self) -> bool
        ensures { result ≡ (self == 0) }
    {
        self.bits == 0
    }
}
