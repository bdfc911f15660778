//! The nine forms of an instruction, and the row of the table that a word meets.

ghost use Rattle.std.specs.Prelude.{◌≡◌};
ghost use Rattle.arm_decode.specs.Table.{form_of};

use crate::fields::field_of;
use profile::Fault;

/// The nine forms of a word in the instruction table.
#[derive(Clone, Copy)]
pub enum Form {
    /// MUL, MLA.
    Multiply,
    /// Data processing with a register shifted by a number.
    ShiftByNumber,
    /// Data processing with a register shifted by a register.
    ShiftByRegister,
    /// Data processing with an immediate operand.
    Immediate,
    /// LDR, STR with an offset of 12 bits.
    OffsetByNumber,
    /// LDR, STR with a shifted register as offset.
    OffsetByRegister,
    /// LDM, STM.
    BlockTransfer,
    /// B, BL.
    Branch,
    /// SWI.
    SoftwareInterrupt,
}

/// The form of a word: the row of the table that its bits meet.
///
/// # Errors
///
/// `UndefinedInstruction` where bits 27 to 25 are 011 with bit 4 set, or 110, or bits 27 to 24
/// are 1110. `Unallocated` where bits 27 to 25 are 000 with bits 7 and 4 set, and the word is no
/// multiply.
#[tactic(auto, using(crate::proofs::Masks::masks))]
#[inline(always)]
pub fn row_of(word: u32) -> Result<Form, Fault>
    ensures { result ≡ form_of word }
{
    match field_of(word, 25, 3) {
        0 if field_of(word, 4, 1) == 0 => Ok(Form::ShiftByNumber),
        0 if field_of(word, 7, 1) == 0 => Ok(Form::ShiftByRegister),
        0 if field_of(word, 22, 6) == 0 && field_of(word, 4, 4) == 9 => Ok(Form::Multiply),
        0 => Err(Fault::Unallocated),
        1 => Ok(Form::Immediate),
        2 => Ok(Form::OffsetByNumber),
        3 if field_of(word, 4, 1) == 0 => Ok(Form::OffsetByRegister),
        4 => Ok(Form::BlockTransfer),
        5 => Ok(Form::Branch),
        7 if field_of(word, 24, 1) == 1 => Ok(Form::SoftwareInterrupt),
        _ => Err(Fault::UndefinedInstruction),
    }
}
