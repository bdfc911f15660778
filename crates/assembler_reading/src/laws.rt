//! Laws of the grammar, over its definitions alone: a function that does nothing, with the laws as
//! its contract.
ghost use Rattle.assembler_reading.specs.Laws.{InstructionsAreReadAgain, DataIsReadAgain};

/// What `disassemble` writes of a word is read as that word: of an instruction as the instruction,
/// of any other word as the operand of DCD.
pub fn printed_words_are_read_again()
    ensures instructions { InstructionsAreReadAgain }
    ensures data { DataIsReadAgain }
{}
