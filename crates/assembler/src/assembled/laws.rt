//! Laws of assembled programs and of the first line that is refused. Each is the contract of a
//! function that does nothing.

ghost use Rattle.assembler.specs.assembled.Laws.{LabelsMoveNothing, LinesArePieces, LinesAreRefused, ProgramsArePieces, RefusalsAreFirst};
ghost use Rattle.assembler.specs.assembled.Lists.{ItemsGoOn, RegistersGoOn, TermsGoOn};

/// A source means a program exactly where there are labels and pieces, one for each line: each is
/// what its line means at the place where the pieces before it end, under these labels; each label
/// is on one line, and has the address where that line's piece puts it; no piece is refused, all
/// fit into memory, and one after another they are the program.
pub fn programs_are_pieces()
    ensures lines { LinesArePieces }
    ensures source { ProgramsArePieces }
{}

/// A source is refused exactly at the first line that has no piece, or a label of an earlier line,
/// or ends too far; or, where all lines can be laid out, at the first whose piece is refused.
pub fn refusals_are_first()
    ensures lines { LinesAreRefused }
    ensures source { RefusalsAreFirst }
{}

/// Under other labels a line's piece takes as many bytes, and its label stands at the same address.
pub fn labels_move_nothing()
    ensures { LabelsMoveNothing }
{}

/// The terms of a number, the items of DCD and DCB, and the registers of LDM and STM are read one
/// after another up to the end of their list, however many there are: the counts that bound these
/// readings in the assembler's definitions end none of them.
pub fn lists_go_on()
    ensures terms { TermsGoOn }
    ensures items { ItemsGoOn }
    ensures registers { RegistersGoOn }
{}
