//! Laws of the whole of memory: which bytes calls, actions and steps write. Each is the contract of
//! a function that does nothing.

ghost use Rattle.law_machine.specs.other_bytes.ActionWrites.{ActionsKeepOthers, PlansKeepOthers, TidiesKeepWords};
ghost use Rattle.law_machine.specs.other_bytes.AreaWrites.{AreaCallsKeepOthers};
ghost use Rattle.law_machine.specs.other_bytes.FlexWrites.{FlexCallsKeepOthers};
ghost use Rattle.law_machine.specs.other_bytes.HeapWrites.{HeapCallsKeepOthers};
ghost use Rattle.law_machine.specs.other_bytes.MoveWrites.{LoadsKeepOthers, NewPagesAreZero, OtherBytesStay, OtherBytesStayOver, ProgramsKeepOthers, StartsAreZero};
ghost use Rattle.law_machine.specs.other_bytes.PageWrites.{PageCallsKeepOthers};

/// A call of OS_Heap that is done writes the words that the list of its heap spells then, and where
/// it moves a block those of the list in which the block stands at both places, and what it copies.
/// Each other byte of memory stays: what a block held that is given back or cut, what comes to a
/// block that grows where it stands, and what comes to a heap that gets another end.
pub fn heap_calls_keep_others()
    ensures { HeapCallsKeepOthers }
{}

/// So does a call on the module area, whatever that grows by: a claim, a release, a change of a
/// block's size, and a new image, which writes its own bytes and none of those that fill up its
/// block.
pub fn area_calls_keep_others()
    ensures { AreaCallsKeepOthers }
{}

/// A call that makes a dynamic area writes nothing; one that changes an area or removes it writes
/// the word that shows the module area's end, if it is that area, and pages that go count as 0.
pub fn page_calls_keep_others()
    ensures { PageCallsKeepOthers }
{}

/// A flex call writes words of anchors, and the blocks from the one that it makes, changes or takes
/// away up to the end of the last one then. What lies after that stays.
pub fn flex_calls_keep_others()
    ensures { FlexCallsKeepOthers }
{}

/// An action of a plan writes private words, the environment text up to its zero, and words of the
/// module area's heap; and a tidy the blocks that it moves, and of private words those that name
/// such blocks. So what a removal gives back stays, and what a tidy leaves behind. A plan that is
/// carried on writes what its actions do.
pub fn actions_keep_others()
    ensures actions { ActionsKeepOthers }
    ensures plans { PlansKeepOthers }
    ensures words { TidiesKeepWords }
{}

/// Over each move of a machine, a store call from outside or a step, each byte of memory stays but
/// for these: what an instruction stores, where no record is kept; what the call's row writes, by
/// its name and reason; what is left of a call when its module code comes back; and where a call is
/// refused, the error's number, its text and the zero after it. So a page that comes is of zeros
/// but for what is written there. Over a list of moves a byte stays that none of them may write. So
/// it is of a module that is loaded from outside, and a program that is put into memory writes its
/// own bytes. At a machine's start each byte is 0 but those of the module area's descriptor.
pub fn other_bytes_stay()
    ensures moves { OtherBytesStay }
    ensures over { OtherBytesStayOver }
    ensures pages { NewPagesAreZero }
    ensures loads { LoadsKeepOthers }
    ensures programs { ProgramsKeepOthers }
    ensures starts { StartsAreZero }
{}
