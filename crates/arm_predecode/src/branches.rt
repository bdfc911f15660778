//! The kinds of branches.

ghost use Rattle.std.specs.Prelude.{false, true};
ghost use Rattle.arm_predecode.specs.Kinds.{KindMeans, Branches};
ghost use Rattle.arm_predecode.specs.OpValue.{OpValue};

use crate::kind::OpKind;
use arm_core::Condition;

/// The kind of B under a condition; `Slow` under the one that never holds.
#[tactic(auto, using(crate::proofs::SameKinds::same_branch))]
pub(crate) fn branch_kind(condition: Condition) -> OpKind
    ensures { (op : OpValue) → Branches condition false op → KindMeans result op }
{
    match condition {
        Condition::Always => OpKind::Branch,
        Condition::Never => OpKind::Slow,
        Condition::Equal => OpKind::BranchIfEqual,
        Condition::NotEqual => OpKind::BranchIfNotEqual,
        Condition::CarrySet => OpKind::BranchIfCarrySet,
        Condition::CarryClear => OpKind::BranchIfCarryClear,
        Condition::Minus => OpKind::BranchIfMinus,
        Condition::Plus => OpKind::BranchIfPlus,
        Condition::OverflowSet => OpKind::BranchIfOverflowSet,
        Condition::OverflowClear => OpKind::BranchIfOverflowClear,
        Condition::Higher => OpKind::BranchIfHigher,
        Condition::LowerOrSame => OpKind::BranchIfLowerOrSame,
        Condition::GreaterOrEqual => OpKind::BranchIfGreaterOrEqual,
        Condition::LessThan => OpKind::BranchIfLessThan,
        Condition::GreaterThan => OpKind::BranchIfGreaterThan,
        Condition::LessOrEqual => OpKind::BranchIfLessOrEqual,
    }
}

/// The kind of BL under a condition.
#[tactic(auto, using(crate::proofs::SameKinds::same_link))]
pub(crate) fn link_kind(condition: Condition) -> OpKind
    ensures { (op : OpValue) → Branches condition true op → KindMeans result op }
{
    match condition {
        Condition::Always => OpKind::Link,
        _ => OpKind::Conditional,
    }
}
