//! Words of each form predecoded.

ghost use Rattle.std.specs.Prelude.{◌≡◌, ◌<◌, ◌&&◌, ◌+◌, ◌%◌, ◌^◌, Ok, None, IfSome, false, true, not};
ghost use Rattle.arm_core.specs.Word.{bit_of, field};
ghost use Rattle.arm_core.specs.Fields.{condition_in, immediate_in, operate_in, shifted_in};
ghost use Rattle.arm_core.specs.Names.{shift_of};
ghost use Rattle.arm_core.specs.Refusals.{is_test, refusal};
ghost use Rattle.arm_core.specs.Table.{form_of};
ghost use Rattle.arm_core.specs.Action.{Action};
ghost use Rattle.arm_core.specs.Condition.{Condition};
ghost use Rattle.arm_core.specs.Form.{Form};
ghost use Rattle.arm_core.specs.ArmDecodeOperand.{Operand};
ghost use Rattle.arm_core.specs.Shift.{Shift};

use crate::branches::{branch_kind, link_kind};
use crate::kind::OpKind;
use crate::op::Op;
use crate::operations::{immediate_kind, register_kind, shifted_kind};
use arm_core::{Bits, Condition, Operand, Operate, Shift, ShiftedRegister, rotate_right};

/// Data processing that the table allows, with neither first operand nor destination R15.
fn plain_operate(second: Operand, word: u32) -> Option<Operate>
    ensures fields { IfSome result (λ operate. operate ≡ operate_in second word) }
    ensures allowed { IfSome result (λ operate. refusal (Action.Operate operate) ≡ None) }
    ensures rd { IfSome result (λ operate. operate.rd < 15) }
    ensures rn { IfSome result (λ operate. operate.rn < 15) }
    ensures places { IfSome result (λ operate.
        (is_test operate.operation && not operate.sets_flags) ≡ false) }
{
    let operate = Operate::in_word(second, word);
    if operate.refusal().is_some() || operate.rd.is_pc() || operate.rn.is_pc() {
        return None;
    }
    if operate.operation.is_test() && !operate.sets_flags {
        return None;
    }
    Some(operate)
}

/// The distance of a branch's target from the branch, in words.
fn distance_in(word: u32) -> u32
    ensures { result ≡ (field word 0 24 + 2) % 2 ^ 24 }
{
    let distance: Bits<24> = Bits::in_word(word, 0);
    (distance.number() + 2) % (1 << 24)
}

impl Op {
    /// B under a condition.
    pub(crate) fn branch(condition: Condition, word: u32) -> Op
        requires form { form_of word ≡ Ok Form.Branch }
        requires condition { condition ≡ condition_in word }
        requires plain { bit_of word 24 ≡ false }
        ensures { result.word ≡ word }
    {
        let value = distance_in(word);
        let kind = branch_kind(condition);
        Op {
            word,
            value,
            kind,
            rd: 0,
            rn: 0,
            rm: 0,
            rs: 0,
            shift: Shift::LogicalLeft,
            is_rotated: false,
        }
    }

    /// BL under a condition.
    pub(crate) fn link(condition: Condition, word: u32) -> Op
        requires form { form_of word ≡ Ok Form.Branch }
        requires condition { condition ≡ condition_in word }
        requires links { bit_of word 24 ≡ true }
        ensures { result.word ≡ word }
    {
        let value = distance_in(word);
        let kind = link_kind(condition);
        Op {
            word,
            value,
            kind,
            rd: 0,
            rn: 0,
            rm: 0,
            rs: 0,
            shift: Shift::LogicalLeft,
            is_rotated: false,
        }
    }

    /// SWI.
    pub(crate) fn interrupt(word: u32) -> Op
        requires form { form_of word ≡ Ok Form.SoftwareInterrupt }
        requires always { condition_in word ≡ Condition.Always }
        ensures { result.word ≡ word }
    {
        Op {
            word,
            value: 0,
            kind: OpKind::Interrupt,
            rd: 0,
            rn: 0,
            rm: 0,
            rs: 0,
            shift: Shift::LogicalLeft,
            is_rotated: false,
        }
    }

    /// Data processing with an immediate operand.
    pub(crate) fn immediate(word: u32) -> Op
        requires form { form_of word ≡ Ok Form.Immediate }
        requires always { condition_in word ≡ Condition.Always }
        ensures { result.word ≡ word }
    {
        match plain_operate(Operand::immediate_in(word), word) {
            Some(operate) => Op::by_immediate(&operate, word),
            None => Op::slow(word),
        }
    }

    fn by_immediate(operate: &Operate, word: u32) -> Op
        requires form { form_of word ≡ Ok Form.Immediate }
        requires always { condition_in word ≡ Condition.Always }
        requires fields { operate.now ≡ operate_in (immediate_in word) word }
        requires allowed { refusal (Action.Operate operate.now) ≡ None }
        requires rd { operate.now.rd < 15 }
        requires rn { operate.now.rn < 15 }
        requires places { (is_test operate.now.operation && not operate.now.sets_flags) ≡ false }
        ensures { result.word ≡ word }
    {
        let rotation: Bits<4> = Bits::in_word(word, 8);
        let byte: Bits<8> = Bits::in_word(word, 0);
        let turned = rotation.number();
        let value = rotate_right(byte.number(), 2 * turned);
        let kind = immediate_kind(operate.operation, operate.sets_flags);
        let rd = operate.rd.number();
        let rn = operate.rn.number();
        Op {
            word,
            value,
            kind,
            rd: rd as u8,
            rn: rn as u8,
            rm: 0,
            rs: 0,
            shift: Shift::LogicalLeft,
            is_rotated: turned != 0,
        }
    }

    /// Data processing with a register, shifted by a number or not.
    pub(crate) fn shifted(word: u32) -> Op
        requires form { form_of word ≡ Ok Form.ShiftByNumber }
        requires always { condition_in word ≡ Condition.Always }
        ensures { result.word ≡ word }
    {
        let shifted = ShiftedRegister::in_word(word);
        let ShiftedRegister { rm, shift, amount } = shifted;
        let plain = plain_operate(Operand::Shifted(shifted), word);
        match plain {
            Some(operate) if !rm.is_pc() => match (amount.number(), shift) {
                (0, Shift::LogicalLeft) => Op::by_register(&operate, word),
                (0, _) => Op::slow(word),
                _ => Op::by_shift(&operate, word),
            },
            _ => Op::to_pc(word),
        }
    }

    fn by_register(operate: &Operate, word: u32) -> Op
        requires form { form_of word ≡ Ok Form.ShiftByNumber }
        requires always { condition_in word ≡ Condition.Always }
        requires fields { operate.now ≡ operate_in (Operand.Shifted (shifted_in word)) word }
        requires allowed { refusal (Action.Operate operate.now) ≡ None }
        requires rd { operate.now.rd < 15 }
        requires rn { operate.now.rn < 15 }
        requires places { (is_test operate.now.operation && not operate.now.sets_flags) ≡ false }
        requires rm { field word 0 4 < 15 }
        requires amount { field word 7 5 ≡ 0 }
        requires shift { shift_of (field word 5 2) ≡ Shift.LogicalLeft }
        ensures { result.word ≡ word }
    {
        let shifted = ShiftedRegister::in_word(word);
        let kind = register_kind(operate.operation, operate.sets_flags);
        let rd = operate.rd.number();
        let rn = operate.rn.number();
        let rm = shifted.rm.number();
        Op {
            word,
            value: 0,
            kind,
            rd: rd as u8,
            rn: rn as u8,
            rm: rm as u8,
            rs: 0,
            shift: Shift::LogicalLeft,
            is_rotated: false,
        }
    }

    fn by_shift(operate: &Operate, word: u32) -> Op
        requires form { form_of word ≡ Ok Form.ShiftByNumber }
        requires always { condition_in word ≡ Condition.Always }
        requires fields { operate.now ≡ operate_in (Operand.Shifted (shifted_in word)) word }
        requires allowed { refusal (Action.Operate operate.now) ≡ None }
        requires rd { operate.now.rd < 15 }
        requires rn { operate.now.rn < 15 }
        requires places { (is_test operate.now.operation && not operate.now.sets_flags) ≡ false }
        requires rm { field word 0 4 < 15 }
        requires amount { 0 < field word 7 5 }
        ensures { result.word ≡ word }
    {
        let shifted = ShiftedRegister::in_word(word);
        let value = shifted.amount.number();
        let kind = shifted_kind(operate.operation, operate.sets_flags);
        let rd = operate.rd.number();
        let rn = operate.rn.number();
        let rm = shifted.rm.number();
        let shift = shifted.shift;
        Op {
            word,
            value,
            kind,
            rd: rd as u8,
            rn: rn as u8,
            rm: rm as u8,
            rs: 0,
            shift,
            is_rotated: false,
        }
    }
}
