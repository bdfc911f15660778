//! Data processing by predecoded words.

ghost use Rattle.std.specs.Prelude.{◌≡◌, ◌<◌, ◌≤◌, ◌&&◌, false, not};
ghost use Rattle.arm_core.specs.Word.{field};
ghost use Rattle.arm_core.specs.Refusals.{is_test};
ghost use Rattle.arm_core.specs.Operand.{rotated_immediate, shifted_value};
ghost use Rattle.arm_core.specs.Operate.{sum_of_operation};
ghost use Rattle.arm_predecode.specs.Kinds.{OperatesByImmediate, OperatesByRegister, OperatesByShift};
ghost use Rattle.arm_run.specs.Operated.{state_after_operation};
ghost use Rattle.arm_run.specs.Standing.{LeadsOn};

use crate::standing::{current, set_current};
use arm_core::{Cpu, Operation, Psr, Shift, add, is_bit_set};
use arm_predecode::Op;
use arm_step::{Shifted, Sum, rotate, shift_left, shift_right, shift_signed, subtract};

/// Data processing with an immediate operand.
#[tactic(auto, using(crate::proofs::SumsLed::immediate_leads))]
pub(crate) fn operate_immediate(cpu: &mut Cpu, operation: Operation, sets_flags: bool, op: &Op)
    requires { OperatesByImmediate operation sets_flags op.now }
    ensures { LeadsOn cpu.old op.now.word cpu.new }
{
    let second = immediate(operation, sets_flags, op, cpu.psr().carry);
    operate(cpu, operation, sets_flags, second, op);
}

/// The immediate operand, with the carry of the shifter.
#[tactic(auto, using(crate::proofs::OperandsRead::rotated, crate::proofs::OperandsRead::unrotated))]
#[inline(always)]
fn immediate(operation: Operation, sets_flags: bool, op: &Op, carry: bool) -> Shifted
    requires { OperatesByImmediate operation sets_flags op.now }
    ensures { result ≡ rotated_immediate (field op.now.word 8 4) (field op.now.word 0 8) carry }
{
    let _known = (operation, sets_flags);
    let value = op.value;
    if op.is_rotated {
        return Shifted {
            value,
            carry: is_bit_set(value, 31),
        };
    }
    Shifted { value, carry }
}

/// Data processing with a register as it is.
#[tactic(auto, using(crate::proofs::SumsLed::register_leads))]
pub(crate) fn operate_register(cpu: &mut Cpu, operation: Operation, sets_flags: bool, op: &Op)
    requires { OperatesByRegister operation sets_flags op.now }
    ensures { LeadsOn cpu.old op.now.word cpu.new }
{
    let second = Shifted {
        value: current(cpu, op.rm),
        carry: cpu.psr().carry,
    };
    operate(cpu, operation, sets_flags, second, op);
}

/// Data processing with a register shifted by 1 to 31.
#[tactic(auto, using(crate::proofs::SumsLed::shift_leads))]
pub(crate) fn operate_shifted(cpu: &mut Cpu, operation: Operation, sets_flags: bool, op: &Op)
    requires { OperatesByShift operation sets_flags op.now }
    ensures { LeadsOn cpu.old op.now.word cpu.new }
{
    let second = shift_by(op.shift, current(cpu, op.rm), op.value);
    operate(cpu, operation, sets_flags, second, op);
}

/// A shift by an amount of at least 1.
#[inline(always)]
fn shift_by(kind: Shift, word: u32, amount: u32) -> Shifted
    requires { 1 ≤ amount }
    ensures { result ≡ shifted_value kind word amount }
{
    match kind {
        Shift::LogicalLeft => shift_left(word, amount),
        Shift::LogicalRight => shift_right(word, amount),
        Shift::ArithmeticRight => shift_signed(word, amount),
        Shift::RotateRight => rotate(word, amount),
    }
}

/// Data processing with a second operand.
#[tactic(auto, unfolding(crate::specs::Operated::state_after_operation))]
#[inline(always)]
fn operate(cpu: &mut Cpu, operation: Operation, sets_flags: bool, second: Shifted, op: &Op)
    requires rd { op.now.rd < 15 }
    requires rn { op.now.rn < 15 }
    requires places { (is_test operation && not sets_flags) ≡ false }
    ensures { cpu.new ≡ state_after_operation cpu.old operation sets_flags op.now second }
{
    let sum = result_of(operation, current(cpu, op.rn), second, cpu.psr());
    if !operation.is_test() {
        set_current(cpu, op.rd, sum.value);
    }
    if sets_flags {
        cpu.set_flags_of(sum);
    }
}

/// The result of an operation with the flags C and V that come with it; a logical one takes C from
/// the shifter and keeps V.
#[inline(always)]
fn result_of(operation: Operation, first: u32, second: Shifted, psr: Psr) -> Sum
    ensures { result ≡ sum_of_operation operation first second psr }
{
    let value = match operation {
        Operation::And | Operation::Test => first & second.value,
        Operation::ExclusiveOr | Operation::TestEquivalence => first ^ second.value,
        Operation::Or => first | second.value,
        Operation::Move => second.value,
        Operation::BitClear => first & !second.value,
        Operation::MoveNot => !second.value,
        Operation::Subtract | Operation::Compare => return subtract(first, second.value, true),
        Operation::ReverseSubtract => return subtract(second.value, first, true),
        Operation::Add | Operation::CompareNegated => return add(first, second.value, false),
        Operation::AddWithCarry => return add(first, second.value, psr.carry),
        Operation::SubtractWithCarry => return subtract(first, second.value, psr.carry),
        Operation::ReverseSubtractWithCarry => return subtract(second.value, first, psr.carry),
    };
    Sum {
        value,
        carry: second.carry,
        overflow: psr.overflow,
    }
}
