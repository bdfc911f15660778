//! The modes of a debugger.

ghost use Rattle.std.specs.Prelude.{◌≡◌};
ghost use Rattle.debug_modes.specs.Modes.{no_modes, takes_over, answer_of_line};

use debug_tables::StepModes;
use debug_tables::counts::StepCounts;
use std::alloc::Global;

/// So many steps of a line are shown where no line says otherwise.
const FIRST_LIMIT: u64 = 1000;

/// How a debugger answers lines that take steps.
#[derive(Drop)]
pub struct DebugModes {
    /// What is done beside the steps.
    pub steps: StepModes,
    /// How often steps were taken at each word of memory.
    pub counts: StepCounts,
    /// Whether what WHY shows stands below each answer that ends with an error.
    pub(crate) is_explaining: bool,
    /// Whether the steps of all lines are shown one by one.
    pub(crate) is_tracing: bool,
    /// How many steps of a line are shown at most.
    pub(crate) limit: u64,
}

impl DebugModes {
    /// Steps go as in a script, not shown and uncounted, and errors not explained; 1,000 steps would be
    /// shown of a line.
    pub fn new(alloc: Global) -> DebugModes
        ensures { result ≡ no_modes }
    {
        DebugModes {
            steps: StepModes::new(),
            counts: StepCounts::new(alloc),
            is_explaining: false,
            is_tracing: false,
            limit: FIRST_LIMIT,
        }
    }

    /// Whether RUN, STEP, CALL and LOAD are answered otherwise than in a script. Where their steps are only
    /// counted, or errors only explained, the answer is the script's.
    pub fn takes_over(&self) -> bool
        ensures { result ≡ takes_over self.now }
    {
        self.is_tracing || self.is_explaining || self.counts.is_on() || !self.steps.is_plain()
    }

    /// How many steps are shown of a line, `None` where they are not shown: shown they are behind TRACE,
    /// and where the steps of all lines are.
    pub fn reported(&self, is_traced: bool) -> Option<u64>
        ensures { result ≡ answer_of_line self.now is_traced }
    {
        if is_traced || self.is_tracing {
            Some(self.limit)
        } else {
            None
        }
    }
}
