//! Shifts of words by every amount, with the bit that is shifted out.

ghost use Rattle.std.specs.Prelude.{◌≡◌, ◌≤◌, ◌<◌, ◌^◌};
ghost use Rattle.arm_decode.specs.Shifted.{shifted_left, shifted_right, shifted_signed, rotated_right, rotation_of, rotated_through};

use profile::word::is_bit_set;

/// A shifted word and the last bit that was shifted out.
#[derive(Clone, Copy)]
pub struct Shifted {
    /// The word after the shift.
    pub value: u32,
    /// The last bit that was shifted out.
    pub carry: bool,
}

/// A shift to the left (LSL) by an amount of at least 1.
#[tactic(auto, using(crate::proofs::Shifting::past))]
pub fn shift_left(word: u32, amount: u32) -> Shifted
    requires { 1 ≤ amount }
    ensures { result ≡ shifted_left word amount }
{
    match amount {
        0..=31 => Shifted {
            value: word << amount,
            carry: is_bit_set(word, 32 - amount),
        },
        32 => Shifted {
            value: 0,
            carry: is_bit_set(word, 0),
        },
        _ => Shifted {
            value: 0,
            carry: false,
        },
    }
}

/// A shift to the right (LSR) by an amount of at least 1.
#[tactic(auto, using(crate::proofs::Shifting::past))]
pub fn shift_right(word: u32, amount: u32) -> Shifted
    requires { 1 ≤ amount }
    ensures { result ≡ shifted_right word amount }
{
    match amount {
        0..=31 => Shifted {
            value: word >> amount,
            carry: is_bit_set(word, amount - 1),
        },
        32 => Shifted {
            value: 0,
            carry: is_bit_set(word, 31),
        },
        _ => Shifted {
            value: 0,
            carry: false,
        },
    }
}

/// A shift to the right that copies the sign (ASR), by an amount of at least 1.
#[tactic(auto, using(crate::proofs::Shifting::past))]
pub fn shift_signed(word: u32, amount: u32) -> Shifted
    requires { 1 ≤ amount }
    ensures { result ≡ shifted_signed word amount }
{
    if amount < 32 {
        Shifted {
            value: (word.cast_signed() >> amount).cast_unsigned(),
            carry: is_bit_set(word, amount - 1),
        }
    } else if is_bit_set(word, 31) {
        Shifted {
            value: u32::MAX,
            carry: true,
        }
    } else {
        Shifted {
            value: 0,
            carry: false,
        }
    }
}

/// The word rotated to the right by any amount, which counts modulo 32.
#[tactic(auto, using(crate::proofs::Shifting::rotation))]
pub fn rotate_right(word: u32, amount: u32) -> u32
    ensures { result ≡ rotated_right word amount }
{
    word.rotate_right(amount)
}

/// A rotation to the right (ROR) by any amount. The carry is the top bit of what comes out, which
/// for an amount of at least 1 was the last to be rotated out.
pub fn rotate(word: u32, amount: u32) -> Shifted
    ensures { result ≡ rotation_of word amount }
{
    let value = rotate_right(word, amount);
    Shifted {
        value,
        carry: is_bit_set(value, 31),
    }
}

/// One place to the right, the carry going in at the top (RRX).
pub fn rotate_through(word: u32, carry: bool) -> Shifted
    ensures { result ≡ rotated_through word carry }
{
    let top = if carry { 1 << 31 } else { 0 };
    Shifted {
        value: top + (word >> 1),
        carry: is_bit_set(word, 0),
    }
}
