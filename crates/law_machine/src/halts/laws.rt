//! Laws of steps and calls that halt a machine or are refused. Each is the contract of a function
//! that does nothing.

ghost use Rattle.law_machine.specs.halts.Halts.{ExitsAreCalls, HaltsChangeNothing, NoFaultFromOutside};
ghost use Rattle.law_machine.specs.halts.LateErrors.{ErringChangesMovePages, RefusedLoadsChangeNothing, RefusedPlansChangeNothing};
ghost use Rattle.law_machine.specs.halts.Refusals.{GoingOnIsDone, RefusalsChangeNothing, RefusedStepsChangeNothing, RefusedStoreCallsChangeNothing};

/// A step that ends in a halt changes nothing but that the machine is halted, and prints nothing.
pub fn halts_change_nothing()
    ensures { HaltsChangeNothing }
{}

/// A step ends in the guest's own end just where its instruction calls OS_Exit.
pub fn exits_are_calls()
    ensures { ExitsAreCalls }
{}

/// No call and no load from outside ends in a fault.
pub fn no_fault_from_outside()
    ensures { NoFaultFromOutside }
{}

/// A store call with the X bit that is refused changes nothing but the block of an error, R0, R14
/// of supervisor mode, V and the program counter, unless it is one of those that may end with an
/// error after they did something.
pub fn refusals_change_nothing()
    ensures refused { RefusalsChangeNothing }
    ensures done { GoingOnIsDone }
    ensures steps { RefusedStepsChangeNothing }
    ensures outside { RefusedStoreCallsChangeNothing }
{}

/// A call on modules that may run module code, and is refused before any of it runs, changes no more than that; nor does
/// such a load from outside.
pub fn refused_plans_change_nothing()
    ensures calls { RefusedPlansChangeNothing }
    ensures loads { RefusedLoadsChangeNothing }
{}

/// A change of an area that errs has moved the pages that it could, and changes no more than that beside it.
pub fn erring_changes_move_pages()
    ensures { ErringChangesMovePages }
{}
