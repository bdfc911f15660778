//! What each call does to the blocks, by their names.

ghost use Rattle.law_machine.specs.flex_names.Laws.{AllocGoesByNames, CallsGoByNames, DoneCallsGoByNames, NamesPrintBlocks, ReleaseGoesByNames, SpliceGoesByNames, WordsHaveNames};
ghost use Rattle.law_machine.specs.flex_names.Runs.{NamesGoAlike, RunsGoByNames};

/// Each block has one name, and no other has it.
pub fn names_print_blocks()
    ensures { NamesPrintBlocks }
{}

/// A splice of the block of a name shows there the splice of what it showed, and at each other name
/// what its block showed under the name before.
pub fn splice_goes_by_names()
    ensures { SpliceGoesByNames }
{}

/// A block that goes is gone under its name, and the word of its anchor is 0 where it lies in a
/// block. All other names show what they did.
pub fn release_goes_by_names()
    ensures { ReleaseGoesByNames }
{}

/// A block that comes shows zeros under its name, and the word of its anchor is seen no more where
/// it lies in a block. All other names show what they did.
pub fn alloc_goes_by_names()
    ensures { AllocGoesByNames }
{}

/// So each call goes by names, where its rule by the numbers of blocks is kept, the name is free
/// for a block that comes, and no anchor lies in what goes.
pub fn calls_go_by_names()
    ensures { CallsGoByNames }
{}

/// Each call that was done and found room goes by names: it was refused where an anchor would be
/// taken away, and where its name was taken.
pub fn done_calls_go_by_names()
    ensures { DoneCallsGoByNames }
{}

/// Each word has a name for the place where it is, so each call is on the word of one.
pub fn words_have_names()
    ensures { WordsHaveNames }
{}

/// So whatever calls are made, in whatever order, and whatever is done between them that leaves the
/// store alone: what each name shows changes by the rules of the calls that find room, in which no
/// address in the store stands, and by nothing else.
pub fn runs_go_by_names()
    ensures { RunsGoByNames }
{}

/// And where names show the same, they show the same after the same call on the same name, wherever
/// the word of the call lies.
pub fn names_go_alike()
    ensures { NamesGoAlike }
{}
