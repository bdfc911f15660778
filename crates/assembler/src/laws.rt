//! The law of the assembler and the disassembler, over their definitions alone: a function that
//! does nothing, with the law as its contract.
ghost use Rattle.assembler.specs.Laws.{PrintedWordsAreAssembled};

/// What `disassemble` writes of a word, of any word, is assembled to that word: a source that is a
/// space and that text, at the word's address, is the program of the word's four bytes, the lowest
/// first. The address is a multiple of 4 below 2^26.
pub fn printed_words_are_assembled()
    ensures { PrintedWordsAreAssembled }
{}
