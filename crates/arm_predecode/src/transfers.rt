//! The kinds of LDR and STR, by what is moved, and how the base is changed.

ghost use Rattle.arm_predecode.specs.Kinds.{KindMeans, TransfersByNumber, TransfersByRegister};
ghost use Rattle.arm_predecode.specs.OpValue.{OpValue};

use crate::kind::OpKind;
use arm_core::Indexing;

/// The kind of LDR or STR with a number as offset; `Slow` where it is one of user mode.
#[tactic(auto, using(crate::proofs::SameKinds::same_number))]
pub(crate) fn number_kind(loads: bool, is_byte: bool, indexing: Indexing) -> OpKind
    ensures { (op : OpValue) → TransfersByNumber loads is_byte indexing op → KindMeans result op }
{
    match (indexing, loads, is_byte) {
        (Indexing::Pre { writes_back: false }, false, false) => OpKind::StoreWordPreBy,
        (Indexing::Pre { writes_back: false }, false, true) => OpKind::StoreBytePreBy,
        (Indexing::Pre { writes_back: false }, true, false) => OpKind::LoadWordPreBy,
        (Indexing::Pre { writes_back: false }, true, true) => OpKind::LoadBytePreBy,
        (Indexing::Pre { writes_back: true }, false, false) => OpKind::StoreWordPreBackBy,
        (Indexing::Pre { writes_back: true }, false, true) => OpKind::StoreBytePreBackBy,
        (Indexing::Pre { writes_back: true }, true, false) => OpKind::LoadWordPreBackBy,
        (Indexing::Pre { writes_back: true }, true, true) => OpKind::LoadBytePreBackBy,
        (Indexing::Post { translates: false }, false, false) => OpKind::StoreWordPostBy,
        (Indexing::Post { translates: false }, false, true) => OpKind::StoreBytePostBy,
        (Indexing::Post { translates: false }, true, false) => OpKind::LoadWordPostBy,
        (Indexing::Post { translates: false }, true, true) => OpKind::LoadBytePostBy,
        _ => OpKind::Slow,
    }
}

/// The kind of LDR or STR with a register as offset; `Slow` where it is one of user mode.
#[tactic(auto, using(crate::proofs::SameKinds::same_offset))]
pub(crate) fn offset_kind(loads: bool, is_byte: bool, indexing: Indexing) -> OpKind
    ensures { (op : OpValue) →
        TransfersByRegister loads is_byte indexing op → KindMeans result op }
{
    match (indexing, loads, is_byte) {
        (Indexing::Pre { writes_back: false }, false, false) => OpKind::StoreWordPreByRegister,
        (Indexing::Pre { writes_back: false }, false, true) => OpKind::StoreBytePreByRegister,
        (Indexing::Pre { writes_back: false }, true, false) => OpKind::LoadWordPreByRegister,
        (Indexing::Pre { writes_back: false }, true, true) => OpKind::LoadBytePreByRegister,
        (Indexing::Pre { writes_back: true }, false, false) => OpKind::StoreWordPreBackByRegister,
        (Indexing::Pre { writes_back: true }, false, true) => OpKind::StoreBytePreBackByRegister,
        (Indexing::Pre { writes_back: true }, true, false) => OpKind::LoadWordPreBackByRegister,
        (Indexing::Pre { writes_back: true }, true, true) => OpKind::LoadBytePreBackByRegister,
        (Indexing::Post { translates: false }, false, false) => OpKind::StoreWordPostByRegister,
        (Indexing::Post { translates: false }, false, true) => OpKind::StoreBytePostByRegister,
        (Indexing::Post { translates: false }, true, false) => OpKind::LoadWordPostByRegister,
        (Indexing::Post { translates: false }, true, true) => OpKind::LoadBytePostByRegister,
        _ => OpKind::Slow,
    }
}
