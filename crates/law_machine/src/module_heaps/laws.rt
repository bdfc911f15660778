//! Laws of calls on modules, and of steps in which module code comes back: the heaps that they
//! forget. Each is the contract of a function that does nothing.

ghost use Rattle.law_machine.specs.module_heaps.GivenUp.{CallsForgetNone, ExtendsForgetCut, GatesForgetGivenUp, GatesForgetNone, LoadsForgetGivenUp, ModuleCallsForgetGivenUp};

/// Each call of OS_Module, done or refused, forgets just the heaps that start in a block of the
/// module area that it gives up; one that changes a block's size forgets just those of which it
/// frees a byte, and those in them. A tidy has a clause of its own.
pub fn module_calls_forget_what_goes()
    ensures calls { ModuleCallsForgetGivenUp }
    ensures extends { ExtendsForgetCut }
{}

/// So does a module that is loaded from outside, and each step in which module code comes back,
/// where nothing slides then.
pub fn loads_and_gates_forget_what_goes()
    ensures loads { LoadsForgetGivenUp }
    ensures gates { GatesForgetGivenUp }
{}

/// The calls that give no block back forget no heap: describe, claim, information, rename, prefer,
/// look up, enter and a tidy as it begins. Nor does a step in which module code comes back, where
/// what is left to do of its call gives none back, whatever slides then.
pub fn other_calls_forget_none()
    ensures calls { CallsForgetNone }
    ensures gates { GatesForgetNone }
{}
