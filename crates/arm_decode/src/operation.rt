//! The sixteen operations of data processing.

ghost use Rattle.std.specs.Prelude.{◌≡◌, ◌<◌};
ghost use Rattle.profile.specs.Word.{field};
ghost use Rattle.arm_decode.specs.Names.{operation_of, operation_code};

use crate::fields::field_of;

/// What a data processing instruction computes ("Data processing" in the data sheet). Its code
/// stands in bits 24 to 21.
#[derive(Clone, Copy)]
pub enum Operation {
    /// AND: Rn and operand 2.
    And,
    /// EOR: Rn exclusive-or operand 2.
    ExclusiveOr,
    /// SUB: Rn less operand 2.
    Subtract,
    /// RSB: operand 2 less Rn.
    ReverseSubtract,
    /// ADD: Rn plus operand 2.
    Add,
    /// ADC: Rn plus operand 2 plus C.
    AddWithCarry,
    /// SBC: Rn less operand 2 less 1 plus C.
    SubtractWithCarry,
    /// RSC: operand 2 less Rn less 1 plus C.
    ReverseSubtractWithCarry,
    /// TST: the flags of AND.
    Test,
    /// TEQ: the flags of EOR.
    TestEquivalence,
    /// CMP: the flags of SUB.
    Compare,
    /// CMN: the flags of ADD.
    CompareNegated,
    /// ORR: Rn or operand 2.
    Or,
    /// MOV: operand 2.
    Move,
    /// BIC: Rn and not operand 2.
    BitClear,
    /// MVN: not operand 2.
    MoveNot,
}

impl Operation {
    /// The operation of a data processing word.
    #[inline(always)]
    pub(crate) fn in_word(word: u32) -> Operation
        ensures { result ≡ operation_of (field word 21 4) }
    {
        match field_of(word, 21, 4) {
            0 => Operation::And,
            1 => Operation::ExclusiveOr,
            2 => Operation::Subtract,
            3 => Operation::ReverseSubtract,
            4 => Operation::Add,
            5 => Operation::AddWithCarry,
            6 => Operation::SubtractWithCarry,
            7 => Operation::ReverseSubtractWithCarry,
            8 => Operation::Test,
            9 => Operation::TestEquivalence,
            10 => Operation::Compare,
            11 => Operation::CompareNegated,
            12 => Operation::Or,
            13 => Operation::Move,
            14 => Operation::BitClear,
            _ => Operation::MoveNot,
        }
    }

    /// The operation's code, 0 to 15.
    pub(crate) fn code(self) -> u32
        ensures value { result ≡ operation_code self }
        ensures below { result < 16 }
    {
        self as u32
    }
}
