//! The sixteen conditions that an instruction is carried out under.

ghost use Rattle.std.specs.Prelude.{◌≡◌, ◌<◌};
ghost use Rattle.arm_decode.specs.Fields.{condition_in};
ghost use Rattle.arm_decode.specs.Names.{condition_code};

use crate::fields::field_of;

/// When an instruction is carried out, by the flags ("The Condition Field" in the data sheet).
/// Its code stands in bits 31 to 28.
#[derive(Clone, Copy)]
pub enum Condition {
    /// EQ: Z set.
    Equal,
    /// NE: Z clear.
    NotEqual,
    /// CS: C set, unsigned higher or same.
    CarrySet,
    /// CC: C clear, unsigned lower.
    CarryClear,
    /// MI: N set.
    Minus,
    /// PL: N clear.
    Plus,
    /// VS: V set.
    OverflowSet,
    /// VC: V clear.
    OverflowClear,
    /// HI: C set and Z clear, unsigned.
    Higher,
    /// LS: C clear or Z set, unsigned.
    LowerOrSame,
    /// GE: N and V alike, signed.
    GreaterOrEqual,
    /// LT: N and V differ, signed.
    LessThan,
    /// GT: Z clear, and N and V alike, signed.
    GreaterThan,
    /// LE: Z set, or N and V differ, signed.
    LessOrEqual,
    /// AL: whatever the flags are.
    Always,
    /// NV: never.
    Never,
}

impl Condition {
    /// The condition of a word. Every word has one, whatever its other bits are.
    #[inline(always)]
    pub fn in_word(word: u32) -> Condition
        ensures { result ≡ condition_in word }
    {
        match field_of(word, 28, 4) {
            0 => Condition::Equal,
            1 => Condition::NotEqual,
            2 => Condition::CarrySet,
            3 => Condition::CarryClear,
            4 => Condition::Minus,
            5 => Condition::Plus,
            6 => Condition::OverflowSet,
            7 => Condition::OverflowClear,
            8 => Condition::Higher,
            9 => Condition::LowerOrSame,
            10 => Condition::GreaterOrEqual,
            11 => Condition::LessThan,
            12 => Condition::GreaterThan,
            13 => Condition::LessOrEqual,
            14 => Condition::Always,
            _ => Condition::Never,
        }
    }

    /// The condition's code, 0 to 15.
    pub(crate) fn code(self) -> u32
        ensures value { result ≡ condition_code self }
        ensures below { result < 16 }
    {
        self as u32
    }
}
