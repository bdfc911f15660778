//! The operands of data processing.

ghost use Rattle.std.specs.Prelude.{◌≡◌, ◌≤◌, true};
ghost use Rattle.arm_decode.specs.Output.{Writes};
ghost use Rattle.assembler_text.specs.Operands.{amount_text, by_register_text, operand_text, shifted_text, shifting_text};

use crate::names::{RegisterName, shift_text};
use crate::numbers::push_immediate;
use arm_decode::{
    Operand, Register, Shift, ShiftedRegister, Sink, WriteFault, push_all, push_parts,
};
use itoa::Buffer;

/// Writes the second operand of data processing.
pub(crate) fn push_operand<W: Sink>(operand: Operand, sink: &mut W) -> Result<(), WriteFault>
    ensures { Writes W.contents W.has_failed sink.old sink.new result (operand_text operand) }
{
    match operand {
        Operand::Immediate { rotation, byte } => push_immediate(rotation.number(), byte, sink),
        Operand::Shifted(shifted) => push_shifted(shifted, sink),
        Operand::ShiftedByRegister { rm, shift, rs } => push_by_register(rm, shift, rs, sink),
    }
}

/// Writes a register with its shift by a number.
pub(crate) fn push_shifted<W: Sink>(
    shifted: ShiftedRegister,
    sink: &mut W,
) -> Result<(), WriteFault>
    ensures { Writes W.contents W.has_failed sink.old sink.new result (shifted_text shifted) }
{
    let ShiftedRegister { rm, shift, amount } = shifted;
    push_all(sink, RegisterName::of(rm).as_slice())?;
    push_shifting(shift, amount.number(), sink)
}

// What follows a register that is shifted by the number in the instruction.
fn push_shifting<W: Sink>(shift: Shift, amount: u32, sink: &mut W) -> Result<(), WriteFault>
    ensures { Writes W.contents W.has_failed sink.old sink.new result (shifting_text shift amount) }
{
    match shift {
        Shift::LogicalLeft if amount == 0 => Ok(()),
        Shift::RotateRight if amount == 0 => push_all(sink, b",RRX"),
        Shift::LogicalRight | Shift::ArithmeticRight if amount == 0 => push_amount(shift, 32, sink),
        _ => push_amount(shift, amount, sink),
    }
}

// `,LSL #n`
fn push_amount<W: Sink>(shift: Shift, amount: u32, sink: &mut W) -> Result<(), WriteFault>
    ensures { Writes W.contents W.has_failed sink.old sink.new result (amount_text shift amount) }
{
    let mut digits = Buffer::new();
    push_parts(
        sink,
        &[
            b",".as_slice(),
            shift_text(shift),
            b" #".as_slice(),
            digits.format(amount).as_bytes(),
        ],
    )
}

// `Rm,LSL Rs`
fn push_by_register<W: Sink>(
    rm: Register,
    shift: Shift,
    rs: Register,
    sink: &mut W,
) -> Result<(), WriteFault>
    ensures { Writes W.contents W.has_failed sink.old sink.new result (by_register_text rm shift rs) }
{
    push_parts(
        sink,
        &[
            RegisterName::of(rm).as_slice(),
            b",".as_slice(),
            shift_text(shift),
            b" ".as_slice(),
            RegisterName::of(rs).as_slice(),
        ],
    )
}
