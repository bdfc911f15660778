//! What the machine has of its modules once the flex store has begun. Each law is the contract of a
//! function that does nothing.

ghost use Rattle.swi_dispatch_plans.specs.flex_frame.ModuleStateLaws.{BegunModuleState};

/// The module state of modules is what it has to be once the store's range is recorded.
pub fn module_states_with_flex()
    ensures { BegunModuleState }
{}
