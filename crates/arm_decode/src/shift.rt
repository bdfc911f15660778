//! The four types of shift, and a register that is shifted by a number.

ghost use Rattle.std.specs.Prelude.{◌≡◌, ◌<◌};
ghost use Rattle.profile.specs.Word.{field};
ghost use Rattle.arm_decode.specs.Fields.{shifted_in};
ghost use Rattle.arm_decode.specs.Names.{shift_of, shift_code};

use crate::bits::Bits;
use crate::fields::field_of;
use crate::register::Register;

/// How a register is shifted ("Shifts" in the data sheet). Its code stands in bits 6 and 5.
#[derive(Clone, Copy)]
pub enum Shift {
    /// LSL: zeros come in below.
    LogicalLeft,
    /// LSR: zeros come in above.
    LogicalRight,
    /// ASR: the sign comes in above.
    ArithmeticRight,
    /// ROR: what falls out below comes in above.
    RotateRight,
}

/// A register shifted by the number that stands in the instruction.
///
/// An `amount` of 0 is no shift for LSL, 32 for LSR and ASR, and RRX for ROR: one place to the
/// right through C.
#[derive(Clone, Copy)]
pub struct ShiftedRegister {
    /// The register, in bits 3 to 0.
    pub rm: Register,
    /// How it is shifted, bits 6 and 5.
    pub shift: Shift,
    /// The amount as it stands in bits 11 to 7.
    pub amount: Bits<5>,
}

impl Shift {
    /// The type of shift of a word that shifts a register.
    #[inline(always)]
    pub(crate) fn in_word(word: u32) -> Shift
        ensures { result ≡ shift_of (field word 5 2) }
    {
        match field_of(word, 5, 2) {
            0 => Shift::LogicalLeft,
            1 => Shift::LogicalRight,
            2 => Shift::ArithmeticRight,
            _ => Shift::RotateRight,
        }
    }

    /// The code of the type, 0 to 3.
    pub(crate) fn code(self) -> u32
        ensures value { result ≡ shift_code self }
        ensures below { result < 4 }
    {
        self as u32
    }
}

impl ShiftedRegister {
    /// The register, type and amount of a word that shifts a register by a number.
    #[inline(always)]
    pub fn in_word(word: u32) -> ShiftedRegister
        ensures { result ≡ shifted_in word }
    {
        ShiftedRegister {
            rm: Register::in_word(word, 0),
            shift: Shift::in_word(word),
            amount: Bits::in_word(word, 7),
        }
    }
}
