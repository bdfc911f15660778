//! The kinds of data processing, by what is computed and whether it sets the flags.

ghost use Rattle.arm_predecode.specs.Kinds.{KindMeans, OperatesByImmediate, OperatesByRegister, OperatesByShift};
ghost use Rattle.arm_predecode.specs.OpValue.{OpValue};

use crate::kind::OpKind;
use arm_core::Operation;

/// The kind of data processing with an immediate operand; `Slow` for a test that sets no flags.
#[tactic(auto, using(crate::proofs::SameKinds::same_immediate))]
pub(crate) fn immediate_kind(operation: Operation, sets_flags: bool) -> OpKind
    ensures { (op : OpValue) → OperatesByImmediate operation sets_flags op → KindMeans result op }
{
    match (operation, sets_flags) {
        (Operation::And, false) => OpKind::ImmediateAnd,
        (Operation::And, true) => OpKind::ImmediateAndS,
        (Operation::ExclusiveOr, false) => OpKind::ImmediateExclusiveOr,
        (Operation::ExclusiveOr, true) => OpKind::ImmediateExclusiveOrS,
        (Operation::Subtract, false) => OpKind::ImmediateSubtract,
        (Operation::Subtract, true) => OpKind::ImmediateSubtractS,
        (Operation::ReverseSubtract, false) => OpKind::ImmediateReverseSubtract,
        (Operation::ReverseSubtract, true) => OpKind::ImmediateReverseSubtractS,
        (Operation::Add, false) => OpKind::ImmediateAdd,
        (Operation::Add, true) => OpKind::ImmediateAddS,
        (Operation::AddWithCarry, false) => OpKind::ImmediateAddWithCarry,
        (Operation::AddWithCarry, true) => OpKind::ImmediateAddWithCarryS,
        (Operation::SubtractWithCarry, false) => OpKind::ImmediateSubtractWithCarry,
        (Operation::SubtractWithCarry, true) => OpKind::ImmediateSubtractWithCarryS,
        (Operation::ReverseSubtractWithCarry, false) => OpKind::ImmediateReverseSubtractWithCarry,
        (Operation::ReverseSubtractWithCarry, true) => OpKind::ImmediateReverseSubtractWithCarryS,
        (Operation::Test, true) => OpKind::ImmediateTestS,
        (Operation::TestEquivalence, true) => OpKind::ImmediateTestEquivalenceS,
        (Operation::Compare, true) => OpKind::ImmediateCompareS,
        (Operation::CompareNegated, true) => OpKind::ImmediateCompareNegatedS,
        (Operation::Or, false) => OpKind::ImmediateOr,
        (Operation::Or, true) => OpKind::ImmediateOrS,
        (Operation::Move, false) => OpKind::ImmediateMove,
        (Operation::Move, true) => OpKind::ImmediateMoveS,
        (Operation::BitClear, false) => OpKind::ImmediateBitClear,
        (Operation::BitClear, true) => OpKind::ImmediateBitClearS,
        (Operation::MoveNot, false) => OpKind::ImmediateMoveNot,
        (Operation::MoveNot, true) => OpKind::ImmediateMoveNotS,
        _ => OpKind::Slow,
    }
}

/// The kind of data processing with a register as it is; `Slow` for a test that sets no flags.
#[tactic(auto, using(crate::proofs::SameKinds::same_register))]
pub(crate) fn register_kind(operation: Operation, sets_flags: bool) -> OpKind
    ensures { (op : OpValue) → OperatesByRegister operation sets_flags op → KindMeans result op }
{
    match (operation, sets_flags) {
        (Operation::And, false) => OpKind::RegisterAnd,
        (Operation::And, true) => OpKind::RegisterAndS,
        (Operation::ExclusiveOr, false) => OpKind::RegisterExclusiveOr,
        (Operation::ExclusiveOr, true) => OpKind::RegisterExclusiveOrS,
        (Operation::Subtract, false) => OpKind::RegisterSubtract,
        (Operation::Subtract, true) => OpKind::RegisterSubtractS,
        (Operation::ReverseSubtract, false) => OpKind::RegisterReverseSubtract,
        (Operation::ReverseSubtract, true) => OpKind::RegisterReverseSubtractS,
        (Operation::Add, false) => OpKind::RegisterAdd,
        (Operation::Add, true) => OpKind::RegisterAddS,
        (Operation::AddWithCarry, false) => OpKind::RegisterAddWithCarry,
        (Operation::AddWithCarry, true) => OpKind::RegisterAddWithCarryS,
        (Operation::SubtractWithCarry, false) => OpKind::RegisterSubtractWithCarry,
        (Operation::SubtractWithCarry, true) => OpKind::RegisterSubtractWithCarryS,
        (Operation::ReverseSubtractWithCarry, false) => OpKind::RegisterReverseSubtractWithCarry,
        (Operation::ReverseSubtractWithCarry, true) => OpKind::RegisterReverseSubtractWithCarryS,
        (Operation::Test, true) => OpKind::RegisterTestS,
        (Operation::TestEquivalence, true) => OpKind::RegisterTestEquivalenceS,
        (Operation::Compare, true) => OpKind::RegisterCompareS,
        (Operation::CompareNegated, true) => OpKind::RegisterCompareNegatedS,
        (Operation::Or, false) => OpKind::RegisterOr,
        (Operation::Or, true) => OpKind::RegisterOrS,
        (Operation::Move, false) => OpKind::RegisterMove,
        (Operation::Move, true) => OpKind::RegisterMoveS,
        (Operation::BitClear, false) => OpKind::RegisterBitClear,
        (Operation::BitClear, true) => OpKind::RegisterBitClearS,
        (Operation::MoveNot, false) => OpKind::RegisterMoveNot,
        (Operation::MoveNot, true) => OpKind::RegisterMoveNotS,
        _ => OpKind::Slow,
    }
}

/// The kind of data processing with a register shifted by 1 to 31; `Slow` for a test that sets no
/// flags.
#[tactic(auto, using(crate::proofs::SameKinds::same_shifted))]
pub(crate) fn shifted_kind(operation: Operation, sets_flags: bool) -> OpKind
    ensures { (op : OpValue) → OperatesByShift operation sets_flags op → KindMeans result op }
{
    match (operation, sets_flags) {
        (Operation::And, false) => OpKind::ShiftedAnd,
        (Operation::And, true) => OpKind::ShiftedAndS,
        (Operation::ExclusiveOr, false) => OpKind::ShiftedExclusiveOr,
        (Operation::ExclusiveOr, true) => OpKind::ShiftedExclusiveOrS,
        (Operation::Subtract, false) => OpKind::ShiftedSubtract,
        (Operation::Subtract, true) => OpKind::ShiftedSubtractS,
        (Operation::ReverseSubtract, false) => OpKind::ShiftedReverseSubtract,
        (Operation::ReverseSubtract, true) => OpKind::ShiftedReverseSubtractS,
        (Operation::Add, false) => OpKind::ShiftedAdd,
        (Operation::Add, true) => OpKind::ShiftedAddS,
        (Operation::AddWithCarry, false) => OpKind::ShiftedAddWithCarry,
        (Operation::AddWithCarry, true) => OpKind::ShiftedAddWithCarryS,
        (Operation::SubtractWithCarry, false) => OpKind::ShiftedSubtractWithCarry,
        (Operation::SubtractWithCarry, true) => OpKind::ShiftedSubtractWithCarryS,
        (Operation::ReverseSubtractWithCarry, false) => OpKind::ShiftedReverseSubtractWithCarry,
        (Operation::ReverseSubtractWithCarry, true) => OpKind::ShiftedReverseSubtractWithCarryS,
        (Operation::Test, true) => OpKind::ShiftedTestS,
        (Operation::TestEquivalence, true) => OpKind::ShiftedTestEquivalenceS,
        (Operation::Compare, true) => OpKind::ShiftedCompareS,
        (Operation::CompareNegated, true) => OpKind::ShiftedCompareNegatedS,
        (Operation::Or, false) => OpKind::ShiftedOr,
        (Operation::Or, true) => OpKind::ShiftedOrS,
        (Operation::Move, false) => OpKind::ShiftedMove,
        (Operation::Move, true) => OpKind::ShiftedMoveS,
        (Operation::BitClear, false) => OpKind::ShiftedBitClear,
        (Operation::BitClear, true) => OpKind::ShiftedBitClearS,
        (Operation::MoveNot, false) => OpKind::ShiftedMoveNot,
        (Operation::MoveNot, true) => OpKind::ShiftedMoveNotS,
        _ => OpKind::Slow,
    }
}
