//! From a word to its instruction.
ghost use Rattle.std.specs.Prelude.{◌≡◌, IfOk};
ghost use Rattle.arm_decode.specs.Decoded.{instruction_of_word};
ghost use Rattle.arm_decode.specs.Diagrams.{word_of_instruction};
ghost use Rattle.arm_decode.specs.Fields.{operand_by_register_in, immediate_in, operate_in, multiply_in, address_in, transfer_of_word, block_transfer_in, action_in};

use crate::action::{Action, BlockTransfer, Multiply, Operate, Transfer};
use crate::address::{Address, BlockMode, Direction, Indexing, Offset};
use crate::bits::Bits;
use crate::condition::Condition;
use crate::fields::field_of;
use crate::form::{Form, row_of};
use crate::instr::Instr;
use crate::operand::Operand;
use crate::operation::Operation;
use crate::register::{Register, RegisterList};
use crate::shift::{Shift, ShiftedRegister};
use profile::Fault;
use profile::word::is_bit_set;

/// The instruction that a word is.
///
/// # Errors
///
/// The first fault of the table: `UndefinedInstruction` or `Unallocated` where the word meets no
/// form, else what refuses the instruction's parts, as `Action::refusal` has it.
#[tactic(auto, unfolding(crate::specs::Decoded::instruction_of_word))]
pub fn decode(word: u32) -> Result<Instr, Fault>
    ensures table { result ≡ instruction_of_word word }
    ensures back { IfOk result (λ i. word_of_instruction i ≡ word) }
{
    let form = row_of(word)?;
    Instr::new(Condition::in_word(word), Action::in_word(form, word))
}

impl Action {
    /// What a word of this form does: its fields, whether the table refuses them or not.
    pub(crate) fn in_word(form: Form, word: u32) -> Action
        ensures { result ≡ action_in form word }
    {
        match form {
            Form::Multiply => Action::Multiply(Multiply::in_word(word)),
            Form::ShiftByNumber => {
                Action::Operate(Operate::in_word(
                    Operand::Shifted(ShiftedRegister::in_word(word)),
                    word,
                ))
            }
            Form::ShiftByRegister => Action::Operate(Operate::in_word(
                Operand::by_register_in(word),
                word,
            )),
            Form::Immediate => Action::Operate(Operate::in_word(Operand::immediate_in(word), word)),
            Form::OffsetByNumber => {
                let offset = Offset::Immediate(Bits::in_word(word, 0));
                Action::Transfer(Transfer::in_word(Address::in_word(offset, word), word))
            }
            Form::OffsetByRegister => {
                let offset = Offset::Shifted(ShiftedRegister::in_word(word));
                Action::Transfer(Transfer::in_word(Address::in_word(offset, word), word))
            }
            Form::BlockTransfer => Action::BlockTransfer(BlockTransfer::in_word(word)),
            Form::Branch => Action::Branch {
                links: is_bit_set(word, 24),
                distance: Bits::in_word(word, 0),
            },
            Form::SoftwareInterrupt => Action::SoftwareInterrupt(Bits::in_word(word, 0)),
        }
    }
}

impl Operand {
    /// The byte and its rotation, as the immediate form has them.
    #[inline(always)]
    pub fn immediate_in(word: u32) -> Operand
        ensures { result ≡ immediate_in word }
    {
        Operand::Immediate {
            rotation: Bits::in_word(word, 8),
            byte: field_of(word, 0, 8) as u8,
        }
    }

    /// The register and the one that shifts it, as the form of shifts by registers has them.
    #[inline(always)]
    pub fn by_register_in(word: u32) -> Operand
        ensures { result ≡ operand_by_register_in word }
    {
        Operand::ShiftedByRegister {
            rm: Register::in_word(word, 0),
            shift: Shift::in_word(word),
            rs: Register::in_word(word, 8),
        }
    }
}

impl Operate {
    /// The fields of data processing with this second operand, whether the table refuses them or
    /// not.
    #[inline(always)]
    pub fn in_word(operand: Operand, word: u32) -> Operate
        ensures { result ≡ operate_in operand word }
    {
        Operate {
            operation: Operation::in_word(word),
            sets_flags: is_bit_set(word, 20),
            rn: Register::in_word(word, 16),
            rd: Register::in_word(word, 12),
            operand,
        }
    }
}

impl Multiply {
    /// The fields of a multiplication, whether the table refuses them or not.
    #[inline(always)]
    pub fn in_word(word: u32) -> Multiply
        ensures { result ≡ multiply_in word }
    {
        Multiply {
            accumulates: is_bit_set(word, 21),
            sets_flags: is_bit_set(word, 20),
            rd: Register::in_word(word, 16),
            rn: Register::in_word(word, 12),
            rs: Register::in_word(word, 8),
            rm: Register::in_word(word, 0),
        }
    }
}

impl Transfer {
    /// The fields of an LDR or STR at this address, whether the table refuses them or not.
    #[inline(always)]
    pub fn in_word(address: Address, word: u32) -> Transfer
        ensures { result ≡ transfer_of_word address word }
    {
        Transfer {
            loads: is_bit_set(word, 20),
            is_byte: is_bit_set(word, 22),
            rd: Register::in_word(word, 12),
            address,
        }
    }
}

impl Address {
    /// The address of an LDR or STR with this offset, with the word's other fields.
    #[inline(always)]
    pub fn in_word(offset: Offset, word: u32) -> Address
        ensures { result ≡ address_in offset word }
    {
        Address {
            indexing: Indexing::in_word(word),
            direction: Direction::in_word(word),
            rn: Register::in_word(word, 16),
            offset,
        }
    }
}

impl BlockTransfer {
    /// The fields of an LDM or STM, whether the table refuses them or not.
    #[inline(always)]
    pub fn in_word(word: u32) -> BlockTransfer
        ensures { result ≡ block_transfer_in word }
    {
        BlockTransfer {
            loads: is_bit_set(word, 20),
            mode: BlockMode::in_word(word),
            psr_or_user: is_bit_set(word, 22),
            writes_back: is_bit_set(word, 21),
            rn: Register::in_word(word, 16),
            list: RegisterList::in_word(word),
        }
    }
}
