//! From an instruction to its word.
ghost use Rattle.std.specs.Prelude.{◌≡◌, ◌<◌, ◌^◌, Ok};
ghost use Rattle.arm_decode.specs.Decoded.{instruction_of_word};
ghost use Rattle.arm_decode.specs.Diagrams.{word_of_diagram, shifted_fields, operand_fields, offset_fields, is_immediate, is_shifted, action_fields, word_of_instruction};
ghost use Rattle.arm_decode.specs.Ranges.{FitsShifted, FitsOperand, FitsOffset, FitsFields};

use crate::action::{Action, BlockTransfer, Multiply, Operate, Transfer};
use crate::address::Offset;
use crate::instr::Instr;
use crate::operand::Operand;
use crate::shift::ShiftedRegister;

/// The word that is this instruction. `decode` gives the instruction back.
pub fn encode(instr: Instr) -> u32
    ensures word { result ≡ word_of_instruction instr }
    ensures again { instruction_of_word result ≡ Ok instr }
{
    (instr.condition().code() << 28) + instr.action().bits()
}

impl Action {
    /// Bits 27 to 0 of the word.
    fn bits(self) -> u32
        ensures value { result ≡ word_of_diagram (action_fields self) }
        ensures below { result < 2 ^ 28 }
        ensures fits { FitsFields self }
    {
        match self {
            Action::Operate(operate) => operate.bits(),
            Action::Multiply(multiply) => multiply.bits(),
            Action::Transfer(transfer) => transfer.bits(),
            Action::BlockTransfer(block) => block.bits(),
            Action::Branch { links, distance } => (5 << 25)
                + (u32::from(links) << 24)
                + distance.number(),
            Action::SoftwareInterrupt(number) => (15 << 24) + number.number(),
        }
    }
}

impl ShiftedRegister {
    /// Bits 11 to 0.
    fn bits(self) -> u32
        ensures value { result ≡ word_of_diagram (shifted_fields self) }
        ensures below { result < 2 ^ 12 }
        ensures fits { FitsShifted self }
    {
        (self.amount.number() << 7) + (self.shift.code() << 5) + self.rm.number()
    }
}

impl Operand {
    /// Bits 11 to 0.
    fn bits(self) -> u32
        ensures value { result ≡ word_of_diagram (operand_fields self) }
        ensures below { result < 2 ^ 12 }
        ensures fits { FitsOperand self }
    {
        match self {
            Operand::Immediate { rotation, byte } => (rotation.number() << 8) + u32::from(byte),
            Operand::Shifted(shifted) => shifted.bits(),
            Operand::ShiftedByRegister { rm, shift, rs } => {
                (rs.number() << 8) + (shift.code() << 5) + (1 << 4) + rm.number()
            }
        }
    }

    fn is_immediate(self) -> bool
        ensures { result ≡ is_immediate self }
    {
        match self {
            Operand::Immediate { .. } => true,
            _ => false,
        }
    }
}

impl Offset {
    /// Bits 11 to 0.
    fn bits(self) -> u32
        ensures value { result ≡ word_of_diagram (offset_fields self) }
        ensures below { result < 2 ^ 12 }
        ensures fits { FitsOffset self }
    {
        match self {
            Offset::Immediate(number) => number.number(),
            Offset::Shifted(shifted) => shifted.bits(),
        }
    }

    fn is_shifted(self) -> bool
        ensures { result ≡ is_shifted self }
    {
        match self {
            Offset::Immediate(_) => false,
            Offset::Shifted(_) => true,
        }
    }
}

impl Operate {
    /// Bits 27 to 0.
    fn bits(self) -> u32
        ensures value { result ≡ word_of_diagram (action_fields (Action.Operate self)) }
        ensures below { result < 2 ^ 28 }
        ensures fits { FitsFields (Action.Operate self) }
    {
        (u32::from(self.operand.is_immediate()) << 25)
            + (self.operation.code() << 21)
            + (u32::from(self.sets_flags) << 20)
            + (self.rn.number() << 16)
            + (self.rd.number() << 12)
            + self.operand.bits()
    }
}

impl Multiply {
    /// Bits 27 to 0.
    fn bits(self) -> u32
        ensures value { result ≡ word_of_diagram (action_fields (Action.Multiply self)) }
        ensures below { result < 2 ^ 28 }
        ensures fits { FitsFields (Action.Multiply self) }
    {
        (u32::from(self.accumulates) << 21)
            + (u32::from(self.sets_flags) << 20)
            + (self.rd.number() << 16)
            + (self.rn.number() << 12)
            + (self.rs.number() << 8)
            + (9 << 4)
            + self.rm.number()
    }
}

impl Transfer {
    /// Bits 27 to 0.
    fn bits(self) -> u32
        ensures value { result ≡ word_of_diagram (action_fields (Action.Transfer self)) }
        ensures below { result < 2 ^ 28 }
        ensures fits { FitsFields (Action.Transfer self) }
    {
        let address = self.address;
        (1 << 26)
            + (u32::from(address.offset.is_shifted()) << 25)
            + (u32::from(address.indexing.is_pre()) << 24)
            + (u32::from(address.direction.is_up()) << 23)
            + (u32::from(self.is_byte) << 22)
            + (u32::from(address.indexing.has_w()) << 21)
            + (u32::from(self.loads) << 20)
            + (address.rn.number() << 16)
            + (self.rd.number() << 12)
            + address.offset.bits()
    }
}

impl BlockTransfer {
    /// Bits 27 to 0.
    fn bits(self) -> u32
        ensures value { result ≡ word_of_diagram (action_fields (Action.BlockTransfer self)) }
        ensures below { result < 2 ^ 28 }
        ensures fits { FitsFields (Action.BlockTransfer self) }
    {
        (4 << 25)
            + (self.mode.code() << 23)
            + (u32::from(self.psr_or_user) << 22)
            + (u32::from(self.writes_back) << 21)
            + (u32::from(self.loads) << 20)
            + (self.rn.number() << 16)
            + self.list.bits()
    }
}
