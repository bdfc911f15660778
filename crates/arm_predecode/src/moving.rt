//! MOV of a register to R15 predecoded.

ghost use Rattle.std.specs.Prelude.{◌≡◌, ◌<◌, Ok, None};
ghost use Rattle.arm_core.specs.Word.{field};
ghost use Rattle.arm_core.specs.Fields.{condition_in, operate_in, shifted_in};
ghost use Rattle.arm_core.specs.Names.{shift_of};
ghost use Rattle.arm_core.specs.Refusals.{refusal};
ghost use Rattle.arm_core.specs.Table.{form_of};
ghost use Rattle.arm_core.specs.Action.{Action};
ghost use Rattle.arm_core.specs.Condition.{Condition};
ghost use Rattle.arm_core.specs.Form.{Form};
ghost use Rattle.arm_core.specs.ArmDecodeOperand.{Operand};
ghost use Rattle.arm_core.specs.Operation.{Operation};
ghost use Rattle.arm_core.specs.Shift.{Shift};
ghost use Rattle.arm_predecode.specs.Kinds.{KindMeans, MovesToPc};
ghost use Rattle.arm_predecode.specs.OpValue.{OpValue};

use crate::kind::OpKind;
use crate::op::Op;
use arm_core::{Operand, Operate, Operation, Shift, ShiftedRegister};

/// The kind of MOV to R15, with the status or without.
#[tactic(auto, using(crate::proofs::SameKinds::same_move))]
fn move_kind(sets_flags: bool) -> OpKind
    ensures { (op : OpValue) → MovesToPc sets_flags op → KindMeans result op }
{
    match sets_flags {
        false => OpKind::MoveToPc,
        true => OpKind::MoveToPcS,
    }
}

impl Op {
    /// MOV of a register as it is to R15; any other word is left to its fields.
    pub(crate) fn to_pc(word: u32) -> Op
        requires form { form_of word ≡ Ok Form.ShiftByNumber }
        requires always { condition_in word ≡ Condition.Always }
        ensures { result.word ≡ word }
    {
        let shifted = ShiftedRegister::in_word(word);
        let ShiftedRegister { rm, shift, amount } = shifted;
        let operate = Operate::in_word(Operand::Shifted(shifted), word);
        if rm.is_pc() || !operate.rd.is_pc() || operate.refusal().is_some() {
            return Op::slow(word);
        }
        match (operate.operation, amount.number(), shift) {
            (Operation::Move, 0, Shift::LogicalLeft) => Op::by_move(&operate, word),
            _ => Op::slow(word),
        }
    }

    fn by_move(operate: &Operate, word: u32) -> Op
        requires form { form_of word ≡ Ok Form.ShiftByNumber }
        requires always { condition_in word ≡ Condition.Always }
        requires fields { operate.now ≡ operate_in (Operand.Shifted (shifted_in word)) word }
        requires allowed { refusal (Action.Operate operate.now) ≡ None }
        requires operation { operate.now.operation ≡ Operation.Move }
        requires rd { operate.now.rd ≡ 15 }
        requires rm { field word 0 4 < 15 }
        requires amount { field word 7 5 ≡ 0 }
        requires shift { shift_of (field word 5 2) ≡ Shift.LogicalLeft }
        ensures { result.word ≡ word }
    {
        let shifted = ShiftedRegister::in_word(word);
        let kind = move_kind(operate.sets_flags);
        let rm = shifted.rm.number();
        Op {
            word,
            value: 0,
            kind,
            rd: 15,
            rn: 0,
            rm: rm as u8,
            rs: 0,
            shift: Shift::LogicalLeft,
            is_rotated: false,
        }
    }
}
