//! LDR and STR predecoded.

ghost use Rattle.std.specs.Prelude.{◌≡◌, ◌<◌, ◌-◌, ◌%◌, ◌^◌, Ok, None, IfSome, true, false, if◌then◌else◌};
ghost use Rattle.arm_core.specs.Word.{bit_of, field};
ghost use Rattle.arm_core.specs.Fields.{condition_in, shifted_in, transfer_in};
ghost use Rattle.arm_core.specs.Names.{shift_of};
ghost use Rattle.arm_core.specs.Refusals.{refusal};
ghost use Rattle.arm_core.specs.Table.{form_of};
ghost use Rattle.arm_core.specs.Action.{Action};
ghost use Rattle.arm_core.specs.Condition.{Condition};
ghost use Rattle.arm_core.specs.Form.{Form};
ghost use Rattle.arm_core.specs.Indexing.{Indexing};
ghost use Rattle.arm_core.specs.Offset.{Offset};
ghost use Rattle.arm_core.specs.Shift.{Shift};

use crate::kind::OpKind;
use crate::op::Op;
use crate::transfers::{number_kind, offset_kind};
use arm_core::{Address, Bits, Indexing, Offset, Shift, ShiftedRegister, Transfer, is_bit_set};

/// LDR or STR that the table allows, with neither base nor loaded or stored register R15.
fn plain_transfer(offset: Offset, word: u32) -> Option<Transfer>
    ensures fields { IfSome result (λ transfer. transfer ≡ transfer_in offset word) }
    ensures allowed { IfSome result (λ transfer. refusal (Action.Transfer transfer) ≡ None) }
    ensures rd { IfSome result (λ transfer. transfer.rd < 15) }
    ensures rn { IfSome result (λ transfer. transfer.address.rn < 15) }
{
    let address = Address::in_word(offset, word);
    let by_pc = address.rn.is_pc();
    let transfer = Transfer::in_word(address, word);
    if transfer.refusal().is_some() || transfer.rd.is_pc() || by_pc {
        return None;
    }
    Some(transfer)
}

/// What is added to the base for an offset that is a number.
fn added_in(word: u32) -> u32
    ensures { result ≡ (if bit_of word 23 then field word 0 12 else (2 ^ 32 - field word 0 12) % 2 ^ 32) }
{
    let number: Bits<12> = Bits::in_word(word, 0);
    if is_bit_set(word, 23) {
        number.number()
    } else {
        0u32.wrapping_sub(number.number())
    }
}

impl Op {
    /// LDR or STR with a number as offset.
    pub(crate) fn transfer(word: u32) -> Op
        requires form { form_of word ≡ Ok Form.OffsetByNumber }
        requires always { condition_in word ≡ Condition.Always }
        ensures { result.word ≡ word }
    {
        match plain_transfer(Offset::Immediate(Bits::in_word(word, 0)), word) {
            Some(transfer) => Op::by_number(&transfer, word),
            None => Op::beside(word),
        }
    }

    fn by_number(transfer: &Transfer, word: u32) -> Op
        requires form { form_of word ≡ Ok Form.OffsetByNumber }
        requires always { condition_in word ≡ Condition.Always }
        requires fields { transfer.now ≡ transfer_in (Offset.Immediate (field word 0 12)) word }
        requires allowed { refusal (Action.Transfer transfer.now) ≡ None }
        requires rd { transfer.now.rd < 15 }
        requires rn { transfer.now.address.rn < 15 }
        ensures { result.word ≡ word }
    {
        let value = added_in(word);
        let kind = number_kind(transfer.loads, transfer.is_byte, transfer.address.indexing);
        let rd = transfer.rd.number();
        let rn = transfer.address.rn.number();
        Op {
            word,
            value,
            kind,
            rd: rd as u8,
            rn: rn as u8,
            rm: 0,
            rs: 0,
            shift: Shift::LogicalLeft,
            is_rotated: false,
        }
    }

    /// LDR of a word from beside R15; any other word is left to its fields.
    fn beside(word: u32) -> Op
        requires form { form_of word ≡ Ok Form.OffsetByNumber }
        requires always { condition_in word ≡ Condition.Always }
        ensures { result.word ≡ word }
    {
        let address = Address::in_word(Offset::Immediate(Bits::in_word(word, 0)), word);
        let by_pc = address.rn.is_pc();
        let transfer = Transfer::in_word(address, word);
        if transfer.refusal().is_some() || transfer.rd.is_pc() || !by_pc {
            return Op::slow(word);
        }
        match (transfer.address.indexing, transfer.loads, transfer.is_byte) {
            (Indexing::Pre { writes_back: false }, true, false) => {
                Op::by_distance(&transfer, word)
            }
            _ => Op::slow(word),
        }
    }

    fn by_distance(transfer: &Transfer, word: u32) -> Op
        requires form { form_of word ≡ Ok Form.OffsetByNumber }
        requires always { condition_in word ≡ Condition.Always }
        requires fields { transfer.now ≡ transfer_in (Offset.Immediate (field word 0 12)) word }
        requires allowed { refusal (Action.Transfer transfer.now) ≡ None }
        requires rd { transfer.now.rd < 15 }
        requires base { transfer.now.address.rn ≡ 15 }
        requires indexing { transfer.now.address.indexing ≡ Indexing.Pre false }
        requires loads { transfer.now.loads ≡ true }
        requires bytes { transfer.now.is_byte ≡ false }
        ensures { result.word ≡ word }
    {
        let value = added_in(word);
        let rd = transfer.rd.number();
        Op {
            word,
            value,
            kind: OpKind::LoadBeside,
            rd: rd as u8,
            rn: 15,
            rm: 0,
            rs: 0,
            shift: Shift::LogicalLeft,
            is_rotated: false,
        }
    }

    /// LDR or STR with a register as offset. A register that is shifted otherwise than to the left,
    /// or taken from the base, is left to the word's fields.
    pub(crate) fn transfer_by(word: u32) -> Op
        requires form { form_of word ≡ Ok Form.OffsetByRegister }
        requires always { condition_in word ≡ Condition.Always }
        ensures { result.word ≡ word }
    {
        let shifted = ShiftedRegister::in_word(word);
        let ShiftedRegister { rm, shift, .. } = shifted;
        let plain = plain_transfer(Offset::Shifted(shifted), word);
        match (plain, shift) {
            (Some(transfer), Shift::LogicalLeft) if !rm.is_pc() && is_bit_set(word, 23) => {
                Op::by_offset(&transfer, word)
            }
            _ => Op::slow(word),
        }
    }

    fn by_offset(transfer: &Transfer, word: u32) -> Op
        requires form { form_of word ≡ Ok Form.OffsetByRegister }
        requires always { condition_in word ≡ Condition.Always }
        requires fields { transfer.now ≡ transfer_in (Offset.Shifted (shifted_in word)) word }
        requires allowed { refusal (Action.Transfer transfer.now) ≡ None }
        requires rd { transfer.now.rd < 15 }
        requires rn { transfer.now.address.rn < 15 }
        requires rm { field word 0 4 < 15 }
        requires shift { shift_of (field word 5 2) ≡ Shift.LogicalLeft }
        requires up { bit_of word 23 ≡ true }
        ensures { result.word ≡ word }
    {
        let shifted = ShiftedRegister::in_word(word);
        let value = shifted.amount.number();
        let kind = offset_kind(transfer.loads, transfer.is_byte, transfer.address.indexing);
        let rd = transfer.rd.number();
        let rn = transfer.address.rn.number();
        let rm = shifted.rm.number();
        Op {
            word,
            value,
            kind,
            rd: rd as u8,
            rn: rn as u8,
            rm: rm as u8,
            rs: 0,
            shift: Shift::LogicalLeft,
            is_rotated: false,
        }
    }
}
