//! Laws of the instruction table, over its definitions alone: functions that do nothing, each with
//! a law as its contract.
ghost use Rattle.arm_decode.specs.Laws.{RowsPartition, WordsComeBack, InstructionsComeBack, FieldsHavePlaces};

/// Every word meets exactly one row of the table, or is undefined, or lies in the one gap.
pub fn rows_partition_the_words()
    ensures { RowsPartition }
{}

/// A word that is an instruction is spelled by it, and an instruction is what its word spells.
pub fn words_and_instructions_match()
    ensures word { WordsComeBack }
    ensures instruction { InstructionsComeBack }
{}

/// A word is the sum of its fields, each at its place, in each of the nine forms.
pub fn fields_have_places()
    ensures { FieldsHavePlaces }
{}
