//! The conditions on an instruction's parts by which the table refuses it.
ghost use Rattle.std.specs.Prelude.{◌≡◌};
ghost use Rattle.arm_decode.specs.Refusals.{is_test, is_move, writes_base, offset_is_pc, refusal};

use crate::action::{Action, BlockTransfer, Multiply, Operate, Transfer};
use crate::address::{Address, Indexing, Offset};
use crate::operand::Operand;
use crate::operation::Operation;
use profile::Fault;

impl Operation {
    /// Whether this is TST, TEQ, CMP or CMN, which only set flags.
    pub fn is_test(self) -> bool
        ensures { result ≡ is_test self }
    {
        match self {
            Operation::Test
            | Operation::TestEquivalence
            | Operation::Compare
            | Operation::CompareNegated => true,
            _ => false,
        }
    }

    /// Whether this is MOV or MVN, which have no first operand.
    pub fn is_move(self) -> bool
        ensures { result ≡ is_move self }
    {
        match self {
            Operation::Move | Operation::MoveNot => true,
            _ => false,
        }
    }
}

impl Indexing {
    /// Whether the base register is written.
    pub fn writes_base(self) -> bool
        ensures { result ≡ writes_base self }
    {
        match self {
            Indexing::Post { .. } => true,
            Indexing::Pre { writes_back } => writes_back,
        }
    }
}

impl Offset {
    /// Whether the offset is R15, shifted or not.
    pub(crate) fn is_pc(self) -> bool
        ensures { result ≡ offset_is_pc self }
    {
        match self {
            Offset::Immediate(_) => false,
            Offset::Shifted(shifted) => shifted.rm.is_pc(),
        }
    }
}

impl Action {
    /// The fault by which the table refuses an instruction that does this, if it does: the first
    /// of Unallocated, PcOperand, MultiplySame, EmptyList and UserBankWriteback that applies.
    pub fn refusal(&self) -> Option<Fault>
        ensures { result ≡ refusal self.now }
    {
        match self {
            Action::Operate(operate) => operate.refusal(),
            Action::Multiply(multiply) => multiply.refusal(),
            Action::Transfer(transfer) => transfer.refusal(),
            Action::BlockTransfer(block) => block.refusal(),
            Action::Branch { .. } | Action::SoftwareInterrupt(_) => None,
        }
    }
}

impl Operate {
    /// The fault by which the table refuses these fields, if it does.
    #[inline(always)]
    pub fn refusal(&self) -> Option<Fault>
        ensures { result ≡ refusal (Action.Operate self.now) }
    {
        let Operate {
            operation,
            sets_flags,
            rn,
            rd,
            operand,
        } = *self;
        if operation.is_test() && !(sets_flags && (rd.number() == 0 || rd.is_pc())) {
            return Some(Fault::Unallocated);
        }
        if operation.is_move() && rn.number() != 0 {
            return Some(Fault::Unallocated);
        }
        match operand {
            Operand::ShiftedByRegister { rs, .. } if rs.is_pc() => Some(Fault::PcOperand),
            _ => None,
        }
    }
}

impl Multiply {
    /// The fault by which the table refuses these fields, if it does.
    #[inline(always)]
    pub fn refusal(&self) -> Option<Fault>
        ensures { result ≡ refusal (Action.Multiply self.now) }
    {
        let Multiply {
            accumulates,
            rd,
            rn,
            rs,
            rm,
            ..
        } = *self;
        if !accumulates && rn.number() != 0 {
            return Some(Fault::Unallocated);
        }
        if rd.is_pc() || rn.is_pc() || rs.is_pc() || rm.is_pc() {
            return Some(Fault::PcOperand);
        }
        if rd.number() == rm.number() {
            return Some(Fault::MultiplySame);
        }
        None
    }
}

impl Transfer {
    /// The fault by which the table refuses these fields, if it does.
    #[inline(always)]
    pub fn refusal(&self) -> Option<Fault>
        ensures { result ≡ refusal (Action.Transfer self.now) }
    {
        let Transfer {
            is_byte,
            rd,
            address,
            ..
        } = *self;
        let Address {
            indexing,
            rn,
            offset,
            ..
        } = address;
        let writes_pc = rn.is_pc() && indexing.writes_base();
        let moves_byte_of_pc = rd.is_pc() && is_byte;
        if offset.is_pc() || writes_pc || moves_byte_of_pc {
            return Some(Fault::PcOperand);
        }
        None
    }
}

impl BlockTransfer {
    /// The fault by which the table refuses these fields, if it does.
    #[inline(always)]
    pub fn refusal(&self) -> Option<Fault>
        ensures { result ≡ refusal (Action.BlockTransfer self.now) }
    {
        if self.rn.is_pc() {
            return Some(Fault::PcOperand);
        }
        if self.list.is_empty() {
            return Some(Fault::EmptyList);
        }
        let loads_pc = self.loads && self.list.contains_pc();
        if self.psr_or_user && self.writes_back && !loads_pc {
            return Some(Fault::UserBankWriteback);
        }
        None
    }
}
