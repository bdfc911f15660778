//! Laws of a machine's flex calls and tidies: they are turns of its stores. Each is the contract of
//! a function that does nothing.

ghost use Rattle.law_machine.specs.sliding.Laws.{CallsAreTurns, StepsAreTurns, PlansStay, PlansStayFromOutside, TidiesGoOn, StoreCallsAreTurns};
ghost use Rattle.law_machine.specs.sliding.MachineStores.{StatesHaveStores};
ghost use Rattle.law_machine.specs.sliding.Reported.{FlexCallsPrintRoom};

/// What the laws over stores ask for holds of the stores of every machine.
pub fn states_have_stores()
    ensures { StatesHaveStores }
{}

/// A flex call is a turn of the machine's stores, and so is the step of a tidy in which the module
/// area slides.
pub fn calls_are_turns()
    ensures { CallsAreTurns }
{}

/// So is a step whose instruction is such a call.
pub fn steps_are_turns()
    ensures { StepsAreTurns }
{}

/// So is such a call that a user makes from outside.
pub fn store_calls_are_turns()
    ensures { StoreCallsAreTurns }
{}

/// A tidy whose module code comes back goes on: the step in which the module area slides is a turn,
/// and all others leave what the stores mean.
pub fn tidies_go_on()
    ensures { TidiesGoOn }
{}

/// While the plan of a call on modules is kept each step leaves it but one in which module code
/// comes back.
pub fn plans_stay()
    ensures { PlansStay }
{}

/// And so does each call that a user makes from outside.
pub fn plans_stay_from_outside()
    ensures { PlansStayFromOutside }
{}

/// A flex call that says whether there was room does so by the turn of the stores that it is.
pub fn flex_calls_print_room()
    ensures { FlexCallsPrintRoom }
{}
