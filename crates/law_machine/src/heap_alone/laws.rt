//! Laws of moves of a machine: a guest's heap answers by itself, and live blocks hold what they
//! held. Each is the contract of a function that does nothing.

ghost use Rattle.law_machine.specs.heap_alone.AreaByteLaws.{ClaimsKeepLiveBytes};
ghost use Rattle.law_machine.specs.heap_alone.ByteLaws.{HeapCallsKeepLiveBytes, InstructionsChangeStored, MovesKeepLiveBytes};
ghost use Rattle.law_machine.specs.heap_alone.FoundLaws.{HeapCallsForgetFreed, OtherMovesForgetNone, OuterHeapsStay};
ghost use Rattle.law_machine.specs.heap_alone.Laws.{MachineHeapsStandAlone, ModuleStatesAnswerAlike};
ghost use Rattle.law_machine.specs.heap_alone.ModuleLaws.{
  GatesKeepHeap,
  LoadsKeepHeap,
  ModuleCallsKeepHeap,
  ModuleMovesKeepHeap,
  ModuleSwisKeepHeap,
};
ghost use Rattle.law_machine.specs.heap_alone.Storing.{StepsLeaveBytes};

/// A step leaves each byte that its instruction doesn't store to.
pub fn steps_leave_bytes()
    ensures { StepsLeaveBytes }
{}

/// A heap that a guest made, with no anchor and no heap in it, answers by its own list and bytes to
/// the calls that are made on it, and is left as these calls alone leave it, whatever else the
/// machine does between them that does not store into it, does not forget it and makes no heap in
/// it. It may lie in a block of another heap, or of the module area.
pub fn heaps_stand_alone()
    ensures { MachineHeapsStandAlone }
{}

/// So two machines in which the heap alone is the same and is asked the same answer alike.
pub fn module_states_answer_alike()
    ensures { ModuleStatesAnswerAlike }
{}

/// Each call of OS_Module keeps a heap that a guest made, whether it is done or refused; so does a
/// module that is loaded from outside. Only a heap that lies in a block of the module area can be
/// forgotten. A call of a SWI of a module forgets none, and keeps each.
pub fn module_calls_keep_heap()
    ensures calls { ModuleCallsKeepHeap }
    ensures handlers { ModuleSwisKeepHeap }
    ensures loads { LoadsKeepHeap }
{}

/// So does each step in which module code comes back: it keeps each such heap, where one that lies
/// in a block of the module area is recorded after it.
pub fn gates_keep_heap()
    ensures { GatesKeepHeap }
{}

/// So does each move that calls OS_Module, from outside or by an instruction, or in which module
/// code comes back.
pub fn module_moves_keep_heap()
    ensures { ModuleMovesKeepHeap }
{}

/// A step that does an instruction changes no byte but those that the instruction stores to, and of
/// these none in a word that store calls keep a record in.
pub fn instructions_change_stored_bytes()
    ensures { InstructionsChangeStored }
{}

/// A call of OS_Heap, by any caller and on any heap, done or refused: each block of that heap that
/// was live and is so still holds what it held, and so does each block of each other heap, but for
/// bytes in that heap's range. Those belong to one of its blocks, or to a block that it lies in.
pub fn heap_calls_keep_live_bytes()
    ensures { HeapCallsKeepLiveBytes }
{}

/// So over any move, each block of a heap that a guest made, in which no anchor lies or is named,
/// and no heap lies or is made: if it was live and is so still, it holds what it held, but for what
/// the move's instruction stored.
pub fn moves_keep_live_bytes()
    ensures { MovesKeepLiveBytes }
{}

/// A claim or a release in the module area, done or refused: each block there that was live and is
/// so still holds what it held.
pub fn claims_keep_live_bytes()
    ensures { ClaimsKeepLiveBytes }
{}

/// A heap that a guest made and that lies in no block of another is recorded after every move. One
/// that lies in a block is so after each move that calls neither OS_Heap nor OS_Module, and in
/// which no module code comes back; and OS_Heap forgets none but where it frees a byte of it, or of
/// a heap in which it lies.
pub fn moves_find_heaps()
    ensures outer { OuterHeapsStay }
    ensures others { OtherMovesForgetNone }
    ensures calls { HeapCallsForgetFreed }
{}
