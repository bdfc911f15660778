//! What a debugger does beside the steps of a line.

ghost use Rattle.std.specs.Prelude.{◌≡◌, []};

use crate::stubs::Stubs;
use command_shell::watches::WordWatches;

/// What a debugger does beside the steps of a line: SWIs that are answered by stubs, and words whose
/// change ends a run.
#[derive(Drop)]
pub struct StepModes {
    pub stubs: Stubs,
    pub watches: WordWatches,
}

impl StepModes {
    ghost use Rattle.debug_tables.specs.Modes.{are_plain};

    /// No stub and no watch.
    pub fn new() -> StepModes
        ensures stubs { result.stubs ≡ [] }
        ensures watches { result.watches ≡ [] }
    {
        StepModes {
            stubs: Stubs::new(),
            watches: WordWatches::new(),
        }
    }

    /// Whether there is no stub and no watch, so that lines go as they go in a script.
    pub fn is_plain(&self) -> bool
        ensures { result ≡ are_plain self.now }
    {
        self.stubs.is_empty() && self.watches.is_empty()
    }
}
