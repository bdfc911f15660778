//! One step by an op.

ghost use Rattle.std.specs.Prelude.{◌≡◌, ◌≤◌, ◌<◌, ◌^◌, IfSome};
ghost use Rattle.arm_step.specs.Memory.{bytes_of, is_owned, layout, class_of};
ghost use Rattle.arm_predecode.specs.Kinds.{KindMeans};
ghost use Rattle.arm_run.specs.Standing.{Acts, IsFetched};

use crate::blocks::{load_block, load_block_with_pc, store_block, store_block_keeping_base};
use crate::branching::{branch_if, link, move_to_pc, move_to_pc_s, target};
use crate::multiplying::multiply;
use crate::operating::{operate_immediate, operate_register, operate_shifted};
use crate::standing::slowly;
use crate::transferring::{
    load_beside, load_by_number, load_by_register, store_by_number, store_by_register,
};
use arm_core::condition::is_met;
use arm_core::{Condition, Cpu, Indexing, Operation};
use arm_predecode::{Op, OpKind};
use arm_step::AddressMap;

/// At the changed base, which isn't written back.
const PRE: Indexing = Indexing::Pre { writes_back: false };
/// At the changed base.
const PRE_BACK: Indexing = Indexing::Pre { writes_back: true };
/// At the base as it was.
const POST: Indexing = Indexing::Post { translates: false };

/// Carries out the word at a position by its kind. Answers where the program goes on, or `None`
/// where another turn comes than that of an instruction that is done; nothing is changed then.
#[tactic(auto, using(crate::proofs::Carried::leads_on_acts, crate::proofs::Carried::leads_acts, crate::proofs::Carried::passes_on, crate::proofs::Carried::interrupts))]
#[inline(always)]
pub(crate) fn act(
    cpu: &mut Cpu,
    at: usize,
    memory: &mut AddressMap,
    kind: OpKind,
    op: &Op,
) -> Option<usize>
    requires known { KindMeans kind op.now }
    requires at { at < 2 ^ 24 }
    requires fetched { IsFetched (bytes_of memory.old) at op.now.word }
    ensures state { Acts (is_owned memory.old) cpu.old at (bytes_of memory.old)
        result cpu.new (bytes_of memory.new) }
    ensures within { IfSome result (λ next. next ≤ 2 ^ 24) }
    ensures layout { layout memory.new ≡ layout memory.old }
    ensures marks { class_of memory.new ≡ class_of memory.old }
{
    match kind {
        OpKind::Slow => return slowly(cpu, at, memory),
        OpKind::Conditional => {
            if is_met(Condition::in_word(op.word), cpu.psr()) {
                return slowly(cpu, at, memory);
            }
        }
        OpKind::Interrupt => return None,
        OpKind::Branch => return Some(target(cpu, at, op)),
        OpKind::Link => return Some(link(cpu, at, op)),
        OpKind::BranchIfEqual => return Some(branch_if(cpu, Condition::Equal, at, op)),
        OpKind::BranchIfNotEqual => return Some(branch_if(cpu, Condition::NotEqual, at, op)),
        OpKind::BranchIfCarrySet => return Some(branch_if(cpu, Condition::CarrySet, at, op)),
        OpKind::BranchIfCarryClear => return Some(branch_if(cpu, Condition::CarryClear, at, op)),
        OpKind::BranchIfMinus => return Some(branch_if(cpu, Condition::Minus, at, op)),
        OpKind::BranchIfPlus => return Some(branch_if(cpu, Condition::Plus, at, op)),
        OpKind::BranchIfOverflowSet => return Some(branch_if(cpu, Condition::OverflowSet, at, op)),
        OpKind::BranchIfOverflowClear => return Some(branch_if(
            cpu,
            Condition::OverflowClear,
            at,
            op,
        )),
        OpKind::BranchIfHigher => return Some(branch_if(cpu, Condition::Higher, at, op)),
        OpKind::BranchIfLowerOrSame => return Some(branch_if(cpu, Condition::LowerOrSame, at, op)),
        OpKind::BranchIfGreaterOrEqual => return Some(branch_if(
            cpu,
            Condition::GreaterOrEqual,
            at,
            op,
        )),
        OpKind::BranchIfLessThan => return Some(branch_if(cpu, Condition::LessThan, at, op)),
        OpKind::BranchIfGreaterThan => return Some(branch_if(cpu, Condition::GreaterThan, at, op)),
        OpKind::BranchIfLessOrEqual => return Some(branch_if(cpu, Condition::LessOrEqual, at, op)),
        OpKind::MoveToPc => return Some(move_to_pc(cpu, at, op)),
        OpKind::MoveToPcS => return Some(move_to_pc_s(cpu, at, op)),
        OpKind::Multiply => multiply(cpu, false, op),
        OpKind::MultiplyAdd => multiply(cpu, true, op),
        OpKind::ImmediateAnd => operate_immediate(cpu, Operation::And, false, op),
        OpKind::ImmediateAndS => operate_immediate(cpu, Operation::And, true, op),
        OpKind::ImmediateExclusiveOr => operate_immediate(cpu, Operation::ExclusiveOr, false, op),
        OpKind::ImmediateExclusiveOrS => operate_immediate(cpu, Operation::ExclusiveOr, true, op),
        OpKind::ImmediateSubtract => operate_immediate(cpu, Operation::Subtract, false, op),
        OpKind::ImmediateSubtractS => operate_immediate(cpu, Operation::Subtract, true, op),
        OpKind::ImmediateReverseSubtract => operate_immediate(
            cpu,
            Operation::ReverseSubtract,
            false,
            op,
        ),
        OpKind::ImmediateReverseSubtractS => operate_immediate(
            cpu,
            Operation::ReverseSubtract,
            true,
            op,
        ),
        OpKind::ImmediateAdd => operate_immediate(cpu, Operation::Add, false, op),
        OpKind::ImmediateAddS => operate_immediate(cpu, Operation::Add, true, op),
        OpKind::ImmediateAddWithCarry => operate_immediate(cpu, Operation::AddWithCarry, false, op),
        OpKind::ImmediateAddWithCarryS => operate_immediate(cpu, Operation::AddWithCarry, true, op),
        OpKind::ImmediateSubtractWithCarry => operate_immediate(
            cpu,
            Operation::SubtractWithCarry,
            false,
            op,
        ),
        OpKind::ImmediateSubtractWithCarryS => operate_immediate(
            cpu,
            Operation::SubtractWithCarry,
            true,
            op,
        ),
        OpKind::ImmediateReverseSubtractWithCarry => operate_immediate(
            cpu,
            Operation::ReverseSubtractWithCarry,
            false,
            op,
        ),
        OpKind::ImmediateReverseSubtractWithCarryS => operate_immediate(
            cpu,
            Operation::ReverseSubtractWithCarry,
            true,
            op,
        ),
        OpKind::ImmediateTestS => operate_immediate(cpu, Operation::Test, true, op),
        OpKind::ImmediateTestEquivalenceS => operate_immediate(
            cpu,
            Operation::TestEquivalence,
            true,
            op,
        ),
        OpKind::ImmediateCompareS => operate_immediate(cpu, Operation::Compare, true, op),
        OpKind::ImmediateCompareNegatedS => operate_immediate(
            cpu,
            Operation::CompareNegated,
            true,
            op,
        ),
        OpKind::ImmediateOr => operate_immediate(cpu, Operation::Or, false, op),
        OpKind::ImmediateOrS => operate_immediate(cpu, Operation::Or, true, op),
        OpKind::ImmediateMove => operate_immediate(cpu, Operation::Move, false, op),
        OpKind::ImmediateMoveS => operate_immediate(cpu, Operation::Move, true, op),
        OpKind::ImmediateBitClear => operate_immediate(cpu, Operation::BitClear, false, op),
        OpKind::ImmediateBitClearS => operate_immediate(cpu, Operation::BitClear, true, op),
        OpKind::ImmediateMoveNot => operate_immediate(cpu, Operation::MoveNot, false, op),
        OpKind::ImmediateMoveNotS => operate_immediate(cpu, Operation::MoveNot, true, op),
        OpKind::RegisterAnd => operate_register(cpu, Operation::And, false, op),
        OpKind::RegisterAndS => operate_register(cpu, Operation::And, true, op),
        OpKind::RegisterExclusiveOr => operate_register(cpu, Operation::ExclusiveOr, false, op),
        OpKind::RegisterExclusiveOrS => operate_register(cpu, Operation::ExclusiveOr, true, op),
        OpKind::RegisterSubtract => operate_register(cpu, Operation::Subtract, false, op),
        OpKind::RegisterSubtractS => operate_register(cpu, Operation::Subtract, true, op),
        OpKind::RegisterReverseSubtract => operate_register(
            cpu,
            Operation::ReverseSubtract,
            false,
            op,
        ),
        OpKind::RegisterReverseSubtractS => operate_register(
            cpu,
            Operation::ReverseSubtract,
            true,
            op,
        ),
        OpKind::RegisterAdd => operate_register(cpu, Operation::Add, false, op),
        OpKind::RegisterAddS => operate_register(cpu, Operation::Add, true, op),
        OpKind::RegisterAddWithCarry => operate_register(cpu, Operation::AddWithCarry, false, op),
        OpKind::RegisterAddWithCarryS => operate_register(cpu, Operation::AddWithCarry, true, op),
        OpKind::RegisterSubtractWithCarry => operate_register(
            cpu,
            Operation::SubtractWithCarry,
            false,
            op,
        ),
        OpKind::RegisterSubtractWithCarryS => operate_register(
            cpu,
            Operation::SubtractWithCarry,
            true,
            op,
        ),
        OpKind::RegisterReverseSubtractWithCarry => operate_register(
            cpu,
            Operation::ReverseSubtractWithCarry,
            false,
            op,
        ),
        OpKind::RegisterReverseSubtractWithCarryS => operate_register(
            cpu,
            Operation::ReverseSubtractWithCarry,
            true,
            op,
        ),
        OpKind::RegisterTestS => operate_register(cpu, Operation::Test, true, op),
        OpKind::RegisterTestEquivalenceS => operate_register(
            cpu,
            Operation::TestEquivalence,
            true,
            op,
        ),
        OpKind::RegisterCompareS => operate_register(cpu, Operation::Compare, true, op),
        OpKind::RegisterCompareNegatedS => operate_register(
            cpu,
            Operation::CompareNegated,
            true,
            op,
        ),
        OpKind::RegisterOr => operate_register(cpu, Operation::Or, false, op),
        OpKind::RegisterOrS => operate_register(cpu, Operation::Or, true, op),
        OpKind::RegisterMove => operate_register(cpu, Operation::Move, false, op),
        OpKind::RegisterMoveS => operate_register(cpu, Operation::Move, true, op),
        OpKind::RegisterBitClear => operate_register(cpu, Operation::BitClear, false, op),
        OpKind::RegisterBitClearS => operate_register(cpu, Operation::BitClear, true, op),
        OpKind::RegisterMoveNot => operate_register(cpu, Operation::MoveNot, false, op),
        OpKind::RegisterMoveNotS => operate_register(cpu, Operation::MoveNot, true, op),
        OpKind::ShiftedAnd => operate_shifted(cpu, Operation::And, false, op),
        OpKind::ShiftedAndS => operate_shifted(cpu, Operation::And, true, op),
        OpKind::ShiftedExclusiveOr => operate_shifted(cpu, Operation::ExclusiveOr, false, op),
        OpKind::ShiftedExclusiveOrS => operate_shifted(cpu, Operation::ExclusiveOr, true, op),
        OpKind::ShiftedSubtract => operate_shifted(cpu, Operation::Subtract, false, op),
        OpKind::ShiftedSubtractS => operate_shifted(cpu, Operation::Subtract, true, op),
        OpKind::ShiftedReverseSubtract => operate_shifted(
            cpu,
            Operation::ReverseSubtract,
            false,
            op,
        ),
        OpKind::ShiftedReverseSubtractS => operate_shifted(
            cpu,
            Operation::ReverseSubtract,
            true,
            op,
        ),
        OpKind::ShiftedAdd => operate_shifted(cpu, Operation::Add, false, op),
        OpKind::ShiftedAddS => operate_shifted(cpu, Operation::Add, true, op),
        OpKind::ShiftedAddWithCarry => operate_shifted(cpu, Operation::AddWithCarry, false, op),
        OpKind::ShiftedAddWithCarryS => operate_shifted(cpu, Operation::AddWithCarry, true, op),
        OpKind::ShiftedSubtractWithCarry => operate_shifted(
            cpu,
            Operation::SubtractWithCarry,
            false,
            op,
        ),
        OpKind::ShiftedSubtractWithCarryS => operate_shifted(
            cpu,
            Operation::SubtractWithCarry,
            true,
            op,
        ),
        OpKind::ShiftedReverseSubtractWithCarry => operate_shifted(
            cpu,
            Operation::ReverseSubtractWithCarry,
            false,
            op,
        ),
        OpKind::ShiftedReverseSubtractWithCarryS => operate_shifted(
            cpu,
            Operation::ReverseSubtractWithCarry,
            true,
            op,
        ),
        OpKind::ShiftedTestS => operate_shifted(cpu, Operation::Test, true, op),
        OpKind::ShiftedTestEquivalenceS => operate_shifted(
            cpu,
            Operation::TestEquivalence,
            true,
            op,
        ),
        OpKind::ShiftedCompareS => operate_shifted(cpu, Operation::Compare, true, op),
        OpKind::ShiftedCompareNegatedS => operate_shifted(cpu, Operation::CompareNegated, true, op),
        OpKind::ShiftedOr => operate_shifted(cpu, Operation::Or, false, op),
        OpKind::ShiftedOrS => operate_shifted(cpu, Operation::Or, true, op),
        OpKind::ShiftedMove => operate_shifted(cpu, Operation::Move, false, op),
        OpKind::ShiftedMoveS => operate_shifted(cpu, Operation::Move, true, op),
        OpKind::ShiftedBitClear => operate_shifted(cpu, Operation::BitClear, false, op),
        OpKind::ShiftedBitClearS => operate_shifted(cpu, Operation::BitClear, true, op),
        OpKind::ShiftedMoveNot => operate_shifted(cpu, Operation::MoveNot, false, op),
        OpKind::ShiftedMoveNotS => operate_shifted(cpu, Operation::MoveNot, true, op),
        OpKind::StoreWordPreBy => return store_by_number(cpu, at, memory, false, PRE, op),
        OpKind::StoreBytePreBy => return store_by_number(cpu, at, memory, true, PRE, op),
        OpKind::LoadWordPreBy => return load_by_number(cpu, at, memory, false, PRE, op),
        OpKind::LoadBytePreBy => return load_by_number(cpu, at, memory, true, PRE, op),
        OpKind::StoreWordPreBackBy => return store_by_number(cpu, at, memory, false, PRE_BACK, op),
        OpKind::StoreBytePreBackBy => return store_by_number(cpu, at, memory, true, PRE_BACK, op),
        OpKind::LoadWordPreBackBy => return load_by_number(cpu, at, memory, false, PRE_BACK, op),
        OpKind::LoadBytePreBackBy => return load_by_number(cpu, at, memory, true, PRE_BACK, op),
        OpKind::StoreWordPostBy => return store_by_number(cpu, at, memory, false, POST, op),
        OpKind::StoreBytePostBy => return store_by_number(cpu, at, memory, true, POST, op),
        OpKind::LoadWordPostBy => return load_by_number(cpu, at, memory, false, POST, op),
        OpKind::LoadBytePostBy => return load_by_number(cpu, at, memory, true, POST, op),
        OpKind::StoreWordPreByRegister => return store_by_register(cpu, at, memory, false, PRE, op),
        OpKind::StoreBytePreByRegister => return store_by_register(cpu, at, memory, true, PRE, op),
        OpKind::LoadWordPreByRegister => return load_by_register(cpu, at, memory, false, PRE, op),
        OpKind::LoadBytePreByRegister => return load_by_register(cpu, at, memory, true, PRE, op),
        OpKind::StoreWordPreBackByRegister => return store_by_register(
            cpu, at, memory, false, PRE_BACK, op,
        ),
        OpKind::StoreBytePreBackByRegister => return store_by_register(
            cpu, at, memory, true, PRE_BACK, op,
        ),
        OpKind::LoadWordPreBackByRegister => return load_by_register(
            cpu, at, memory, false, PRE_BACK, op,
        ),
        OpKind::LoadBytePreBackByRegister => return load_by_register(
            cpu, at, memory, true, PRE_BACK, op,
        ),
        OpKind::StoreWordPostByRegister => return store_by_register(
            cpu, at, memory, false, POST, op,
        ),
        OpKind::StoreBytePostByRegister => return store_by_register(
            cpu, at, memory, true, POST, op,
        ),
        OpKind::LoadWordPostByRegister => return load_by_register(cpu, at, memory, false, POST, op),
        OpKind::LoadBytePostByRegister => return load_by_register(cpu, at, memory, true, POST, op),
        OpKind::LoadBeside => return load_beside(cpu, at, memory, op),
        OpKind::StoreDown => return store_block_keeping_base(cpu, at, memory, false, op),
        OpKind::StoreDownBack => return store_block(cpu, at, memory, false, true, op),
        OpKind::StoreUp => return store_block_keeping_base(cpu, at, memory, true, op),
        OpKind::StoreUpBack => return store_block(cpu, at, memory, true, true, op),
        OpKind::LoadDown => return load_block(cpu, at, memory, false, false, op),
        OpKind::LoadDownBack => return load_block(cpu, at, memory, false, true, op),
        OpKind::LoadUp => return load_block(cpu, at, memory, true, false, op),
        OpKind::LoadUpBack => return load_block(cpu, at, memory, true, true, op),
        OpKind::LoadUpWithPc => return load_block_with_pc(cpu, at, memory, false, op),
        OpKind::LoadUpBackWithPc => return load_block_with_pc(cpu, at, memory, true, op),
    }
    Some(at + 1)
}
