//! LDM and STM predecoded.

ghost use Rattle.std.specs.Prelude.{◌≡◌, ◌<◌, ◌≤◌, ◌&&◌, not, Ok, None, true, false};
ghost use Rattle.arm_core.specs.Word.{bit_of};
ghost use Rattle.arm_core.specs.Fields.{block_transfer_in, condition_in};
ghost use Rattle.arm_core.specs.Refusals.{refusal};
ghost use Rattle.arm_core.specs.Table.{form_of};
ghost use Rattle.arm_core.specs.Action.{Action};
ghost use Rattle.arm_core.specs.Condition.{Condition};
ghost use Rattle.arm_core.specs.Form.{Form};
ghost use Rattle.arm_predecode.specs.Kinds.{KindMeans, goes_up, gap_below, MovesBlock};
ghost use Rattle.arm_predecode.specs.OpValue.{OpValue};

use crate::kind::OpKind;
use crate::op::Op;
use arm_core::registers::size_of;
use arm_core::{BlockMode, BlockTransfer, Shift};

/// Whether the base goes up.
fn goes_up(mode: BlockMode) -> bool
    ensures { result ≡ goes_up mode }
{
    match mode {
        BlockMode::IncrementAfter | BlockMode::IncrementBefore => true,
        BlockMode::DecrementAfter | BlockMode::DecrementBefore => false,
    }
}

/// How far above the lower of the base and the base after it the first word lies.
fn gap_below(mode: BlockMode) -> u8
    ensures { result ≡ gap_below mode }
{
    match mode {
        BlockMode::IncrementBefore | BlockMode::DecrementAfter => 4,
        BlockMode::IncrementAfter | BlockMode::DecrementBefore => 0,
    }
}

/// The kind of LDM or STM without R15.
#[tactic(auto, using(crate::proofs::SameKinds::same_block))]
fn block_kind(loads: bool, is_up: bool, writes_back: bool) -> OpKind
    ensures { (op : OpValue) → MovesBlock loads is_up writes_back false op → KindMeans result op }
{
    match (loads, is_up, writes_back) {
        (false, false, false) => OpKind::StoreDown,
        (false, false, true) => OpKind::StoreDownBack,
        (false, true, false) => OpKind::StoreUp,
        (false, true, true) => OpKind::StoreUpBack,
        (true, false, false) => OpKind::LoadDown,
        (true, false, true) => OpKind::LoadDownBack,
        (true, true, false) => OpKind::LoadUp,
        (true, true, true) => OpKind::LoadUpBack,
    }
}

/// The kind of LDM up with R15.
#[tactic(auto, using(crate::proofs::SameKinds::same_block))]
fn block_kind_with_pc(writes_back: bool) -> OpKind
    ensures { (op : OpValue) → MovesBlock true true writes_back true op → KindMeans result op }
{
    match writes_back {
        false => OpKind::LoadUpWithPc,
        true => OpKind::LoadUpBackWithPc,
    }
}

impl Op {
    /// LDM or STM of the present mode's registers. A load of R15 from below the base, and a store
    /// of R15 or of a base that is written back are left to the word's fields.
    pub(crate) fn block(word: u32) -> Op
        requires form { form_of word ≡ Ok Form.BlockTransfer }
        requires always { condition_in word ≡ Condition.Always }
        ensures { result.word ≡ word }
    {
        let block = BlockTransfer::in_word(word);
        if block.refusal().is_some() || block.psr_or_user || block.rn.is_pc() {
            return Op::slow(word);
        }
        let stores_base = !block.loads && (block.writes_back && block.list.contains(block.rn));
        if stores_base {
            return Op::slow(word);
        }
        if !block.list.contains_pc() {
            return Op::by_list(&block, word);
        }
        if block.loads && goes_up(block.mode) {
            return Op::by_list_with_pc(&block, word);
        }
        Op::slow(word)
    }

    fn by_list(block: &BlockTransfer, word: u32) -> Op
        requires form { form_of word ≡ Ok Form.BlockTransfer }
        requires always { condition_in word ≡ Condition.Always }
        requires fields { block.now ≡ block_transfer_in word }
        requires allowed { refusal (Action.BlockTransfer block.now) ≡ None }
        requires plain { block.now.psr_or_user ≡ false }
        requires rn { block.now.rn < 15 }
        requires pc { bit_of block.now.list 15 ≡ false }
        requires apart { (not block.now.loads &&
            (block.now.writes_back && bit_of block.now.list block.now.rn)) ≡ false }
        ensures { result.word ≡ word }
    {
        let is_up = goes_up(block.mode);
        let kind = block_kind(block.loads, is_up, block.writes_back);
        let gap = gap_below(block.mode);
        let size = 4 * size_of(block.list);
        let list = block.list.bits();
        let rn = block.rn.number();
        Op {
            word,
            value: list,
            kind,
            rd: 0,
            rn: rn as u8,
            rm: gap,
            rs: size as u8,
            shift: Shift::LogicalLeft,
            is_rotated: false,
        }
    }

    fn by_list_with_pc(block: &BlockTransfer, word: u32) -> Op
        requires form { form_of word ≡ Ok Form.BlockTransfer }
        requires always { condition_in word ≡ Condition.Always }
        requires fields { block.now ≡ block_transfer_in word }
        requires allowed { refusal (Action.BlockTransfer block.now) ≡ None }
        requires plain { block.now.psr_or_user ≡ false }
        requires rn { block.now.rn < 15 }
        requires loads { block.now.loads ≡ true }
        requires up { goes_up block.now.mode ≡ true }
        requires pc { bit_of block.now.list 15 ≡ true }
        ensures { result.word ≡ word }
    {
        let kind = block_kind_with_pc(block.writes_back);
        let gap = gap_below(block.mode);
        let size = 4 * size_of(block.list);
        let list = block.list.bits();
        let rn = block.rn.number();
        Op {
            word,
            value: list,
            kind,
            rd: 0,
            rn: rn as u8,
            rm: gap,
            rs: size as u8,
            shift: Shift::LogicalLeft,
            is_rotated: false,
        }
    }
}
