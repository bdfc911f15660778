//! The laws, over the definitions alone but for the last, each the contract of a function that does
//! nothing.
//!
//! What the table of instructions does with a word goes by the word's fields. What is done with a
//! predecoded word goes by the parts that were kept of it. These laws say, for each group of kinds,
//! that this comes to the same, faults included.

ghost use Rattle.std.specs.Prelude.{◌≡◌, ◌<◌};
ghost use Rattle.arm_predecode.specs.Kinds.{Means};
ghost use Rattle.arm_run.specs.decoded.Laws.{ImmediatesOperate, RegistersOperate, ShiftsOperate, ProductsAreSet, BranchesLead, LinksLead, JumpsLead, InterruptsTurn, UnmetConditionsPass, NumbersTransfer, RegistersTransfer, WordsBesideLoad, BlocksLoad, BlocksStore};

use arm_predecode::{DecodeCache, Op};

/// Data processing by an op is its word's, with an immediate operand, a register, and a
/// register that is shifted.
pub fn op_words_operate()
    ensures immediate { ImmediatesOperate }
    ensures register { RegistersOperate }
    ensures shift { ShiftsOperate }
{}

/// MUL and MLA by an op are its word's.
pub fn op_words_multiply()
    ensures { ProductsAreSet }
{}

/// Branches, taken or not, and MOV to R15 by an op lead where its word does.
pub fn op_words_branch()
    ensures branch { BranchesLead }
    ensures link { LinksLead }
    ensures jump { JumpsLead }
{}

/// LDR and STR by an op are its word's, with their faults.
pub fn op_words_transfer()
    ensures number { NumbersTransfer }
    ensures register { RegistersTransfer }
    ensures beside { WordsBesideLoad }
{}

/// LDM and STM by an op are its word's, with their faults.
pub fn op_words_move_blocks()
    ensures load { BlocksLoad }
    ensures store { BlocksStore }
{}

/// A ready SWI is its word's turn, and any word whose condition isn't met is passed over.
pub fn op_words_turn_or_pass()
    ensures turn { InterruptsTurn }
    ensures pass { UnmetConditionsPass }
{}

/// What is looked up for a word, whatever was kept at its place before, was made from that very
/// word, and what its kind says of its parts holds.
pub fn op_word_is_its_word(op: &mut DecodeCache, place: usize, word: u32) -> &Op
    requires { place < 1024 }
    ensures word { result.now.word ≡ word }
    ensures means { Means result.now }
{
    op.prepare(place, word);
    let entry = op.at(place);
    entry.known();
    entry
}
