//! The words of instructions.

ghost use Rattle.std.specs.Prelude.{◌≡◌, ◌≤◌, ℕ, List, take};
ghost use Rattle.assembler_text.specs.Names.{block_mode_text, choose_text, condition_text, operation_text, register_text, shift_text, text_if};

use arm_decode::{BlockMode, Condition, Operation, Register, Shift};
use std::marker::Model;

/// The suffix of a condition; AL has none.
pub fn condition_text(condition: Condition) -> &'static [u8]
    ensures { result.now ≡ condition_text condition }
{
    match condition {
        Condition::Equal => b"EQ",
        Condition::NotEqual => b"NE",
        Condition::CarrySet => b"CS",
        Condition::CarryClear => b"CC",
        Condition::Minus => b"MI",
        Condition::Plus => b"PL",
        Condition::OverflowSet => b"VS",
        Condition::OverflowClear => b"VC",
        Condition::Higher => b"HI",
        Condition::LowerOrSame => b"LS",
        Condition::GreaterOrEqual => b"GE",
        Condition::LessThan => b"LT",
        Condition::GreaterThan => b"GT",
        Condition::LessOrEqual => b"LE",
        Condition::Always => b"",
        Condition::Never => b"NV",
    }
}

/// The name of an operation.
pub fn operation_text(operation: Operation) -> &'static [u8]
    ensures { result.now ≡ operation_text operation }
{
    match operation {
        Operation::And => b"AND",
        Operation::ExclusiveOr => b"EOR",
        Operation::Subtract => b"SUB",
        Operation::ReverseSubtract => b"RSB",
        Operation::Add => b"ADD",
        Operation::AddWithCarry => b"ADC",
        Operation::SubtractWithCarry => b"SBC",
        Operation::ReverseSubtractWithCarry => b"RSC",
        Operation::Test => b"TST",
        Operation::TestEquivalence => b"TEQ",
        Operation::Compare => b"CMP",
        Operation::CompareNegated => b"CMN",
        Operation::Or => b"ORR",
        Operation::Move => b"MOV",
        Operation::BitClear => b"BIC",
        Operation::MoveNot => b"MVN",
    }
}

/// The name of a shift.
pub fn shift_text(shift: Shift) -> &'static [u8]
    ensures { result.now ≡ shift_text shift }
{
    match shift {
        Shift::LogicalLeft => b"LSL",
        Shift::LogicalRight => b"LSR",
        Shift::ArithmeticRight => b"ASR",
        Shift::RotateRight => b"ROR",
    }
}

/// The suffix of a block transfer.
pub fn block_mode_text(mode: BlockMode) -> &'static [u8]
    ensures { result.now ≡ block_mode_text mode }
{
    match mode {
        BlockMode::DecrementAfter => b"DA",
        BlockMode::IncrementAfter => b"IA",
        BlockMode::DecrementBefore => b"DB",
        BlockMode::IncrementBefore => b"IB",
    }
}

/// The name of a register: `R0` to `R14`, or `PC`.
#[derive(Drop)]
pub struct RegisterName {
    bytes: [u8; 3],
    len: usize,
}

impl Model for RegisterName {
    ghost Value = { List ℕ };

    ghost view = { λ n. take n.len n.bytes };

    ghost invariant = { λ n. n.len ≤ 3 };
}

impl RegisterName {
    /// The name of this register.
    pub(crate) fn of(register: Register) -> RegisterName
        ensures { result ≡ register_text register }
    {
        let number = register.number() as u8;
        if number == 15 {
            RegisterName {
                bytes: *b"PC ",
                len: 2,
            }
        } else if number < 10 {
            RegisterName {
                bytes: [b'R', number + b'0', b' '],
                len: 2,
            }
        } else {
            RegisterName {
                bytes: [b'R', b'1', number + 38],
                len: 3,
            }
        }
    }

    /// The name's bytes.
    pub(crate) fn as_slice(&self) -> &[u8]
        ensures { result.now ≡ self.now }
    {
        &self.bytes[..self.len]
    }
}

/// The first of two words, or the second.
pub(crate) fn choose_text<'a>(is_first: bool, first: &'a [u8], second: &'a [u8]) -> &'a [u8]
    ensures { result.now ≡ choose_text is_first first.now second.now }
{
    if is_first { first } else { second }
}

/// A word that is there or not.
pub(crate) fn text_if(is_there: bool, text: &[u8]) -> &[u8]
    ensures { result.now ≡ text_if is_there text.now }
{
    choose_text(is_there, text, b"")
}
