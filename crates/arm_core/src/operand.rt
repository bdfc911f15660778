//! The second operand of data processing.

ghost use Rattle.std.specs.Prelude.{◌≡◌, ◌<◌, ◌≤◌, ◌^◌, ◌%◌};
ghost use Rattle.arm_core.specs.Operand.{shifted_value, shifted_by_zero, shifted_by_number, shifted_by_byte, rotated_immediate, shifted_register, operand_of, words_ahead};

use crate::cpu::Cpu;
use arm_decode::{
    Operand, Shift, Shifted, ShiftedRegister, rotate, rotate_through, shift_left, shift_right,
    shift_signed,
};

/// A shift by an amount of at least 1.
#[inline(always)]
fn shift_by(kind: Shift, word: u32, amount: u32) -> Shifted
    requires { 1 ≤ amount }
    ensures { result ≡ shifted_value kind word amount }
{
    match kind {
        Shift::LogicalLeft => shift_left(word, amount),
        Shift::LogicalRight => shift_right(word, amount),
        Shift::ArithmeticRight => shift_signed(word, amount),
        Shift::RotateRight => rotate(word, amount),
    }
}

/// What a shift by the number 0 stands for: none for LSL, 32 for LSR and ASR, RRX for ROR.
#[inline(always)]
fn shift_by_zero(kind: Shift, word: u32, carry: bool) -> Shifted
    ensures { result ≡ shifted_by_zero kind word carry }
{
    match kind {
        Shift::LogicalLeft => Shifted { value: word, carry },
        Shift::LogicalRight => shift_right(word, 32),
        Shift::ArithmeticRight => shift_signed(word, 32),
        Shift::RotateRight => rotate_through(word, carry),
    }
}

/// A shift by the number in the instruction.
#[inline(always)]
fn shift_by_number(kind: Shift, word: u32, amount: u32, carry: bool) -> Shifted
    ensures { result ≡ shifted_by_number kind word amount carry }
{
    if amount == 0 {
        shift_by_zero(kind, word, carry)
    } else {
        shift_by(kind, word, amount)
    }
}

/// A shift by the low byte of a register, of which 0 keeps the value and C.
#[inline(always)]
fn shift_by_byte(kind: Shift, word: u32, amount: u32, carry: bool) -> Shifted
    ensures { result ≡ shifted_by_byte kind word amount carry }
{
    if amount == 0 {
        Shifted { value: word, carry }
    } else {
        shift_by(kind, word, amount)
    }
}

/// A byte rotated right by twice the field, of which 0 keeps C.
#[inline(always)]
fn immediate(rotation: u32, byte: u8, carry: bool) -> Shifted
    requires { rotation < 16 }
    ensures { result ≡ rotated_immediate rotation byte carry }
{
    let word = u32::from(byte);
    if rotation == 0 {
        Shifted { value: word, carry }
    } else {
        rotate(word, 2 * rotation)
    }
}

/// How far ahead R15 is read: two words, or three where a register gives the amount of a shift.
#[inline(always)]
pub(crate) fn words_ahead(operand: &Operand) -> u32
    ensures value { result ≡ words_ahead operand.now }
    ensures most { result ≤ 3 }
{
    match operand {
        Operand::Immediate { .. } | Operand::Shifted(_) => 2,
        Operand::ShiftedByRegister { .. } => 3,
    }
}

impl Cpu {
    /// A register shifted by a number.
    #[inline(always)]
    pub fn shifted_register(&self, shifted: ShiftedRegister) -> Shifted
        ensures { result ≡ shifted_register self.now shifted }
    {
        let psr = self.psr();
        let word = self.status_operand(psr.mode, shifted.rm, 2);
        shift_by_number(shifted.shift, word, shifted.amount.number(), psr.carry)
    }

    /// The second operand, with the carry of the shifter.
    #[inline(always)]
    pub(crate) fn operand(&self, operand: &Operand) -> Shifted
        ensures { result ≡ operand_of self.now operand.now }
    {
        match operand {
            Operand::Immediate { rotation, byte } => immediate(
                rotation.number(),
                *byte,
                self.psr().carry,
            ),
            Operand::Shifted(shifted) => self.shifted_register(*shifted),
            Operand::ShiftedByRegister { rm, shift, rs } => {
                let psr = self.psr();
                let word = self.status_operand(psr.mode, *rm, 3);
                let amount = self.plain_operand(*rs, 3) % 256;
                shift_by_byte(*shift, word, amount, psr.carry)
            }
        }
    }
}
