//! What is done to a machine.

ghost use Rattle.std.specs.Prelude.{◌≡◌, IfOk, option_map};
ghost use Rattle.debug_history.specs.Acts.{is_anew, steps_act, steps_behind, steps_of_deed, stubs_of_deed, taken_steps};

use crate::kept_stubs::KeptStubs;
use arm_core::{Mode, Psr};
use command_shell_lines::{KeptText, Origin, RegisterNumber, WordAddress};
use debug_lines::SteppingCommand;
use debug_tables::Stubs;
use std::alloc::{AllocError, Global};

/// What is done to a machine, by itself or from outside.
#[derive(Drop)]
pub enum PastDeed {
    /// So many steps are taken that are counted, with stubs for SWIs that the machine doesn't have.
    Steps(KeptStubs, u64),
    /// A step is taken that ends in a fault, and isn't counted.
    FaultingStep,
    /// A program is booted, by the name of its image, if it can be.
    Boot(KeptText),
    /// The first step of a SWI that is called from outside, and whether it is counted.
    Call(u32, bool),
    /// The first step of a module that is loaded from outside, and whether it is counted.
    Load(KeptText, bool),
    /// One of R0 to R14 of the present mode is set.
    Register(RegisterNumber, u32),
    /// A word is stored as a guest's store would, if it can be.
    Word(WordAddress, u32),
    /// One of R0 to R14 of a mode is set, whatever the present one.
    Banked(Mode, RegisterNumber, u32),
    /// The program counter is set.
    Place(Origin),
    /// A routine is called: R14 of the present mode is set, and the program counter.
    Routine(Origin, u32),
    /// The status is set.
    Status(Psr),
    /// A machine that is halted can take steps again.
    Woken,
    /// Bytes are written from outside, the first of them at an address, if they can be.
    Bytes(u32, KeptText),
    /// The machine is made anew.
    Anew,
}

/// What a line of a script did, by the line's number.
#[derive(Drop)]
pub struct Act {
    /// The number of the line.
    pub line: u64,
    /// What was done.
    pub deed: PastDeed,
}

impl Act {
    // So many of its steps.
    pub(crate) fn of_count(&self, alloc: Global, count: u64) -> Result<Act, AllocError>
        ensures { IfOk result (λ act. act ≡ steps_act self.now.line (stubs_of_deed self.now.deed) count) }
    {
        let stubs = KeptStubs::of(alloc, &self.deed.stubs())?;
        Ok(Act {
            line: self.line,
            deed: PastDeed::Steps(stubs, count),
        })
    }
}

impl PastDeed {
    /// Whether it makes the machine anew.
    pub fn is_anew(&self) -> bool
        ensures { result ≡ is_anew self.now }
    {
        matches!(self, PastDeed::Anew)
    }

    /// How many steps it counts.
    pub fn steps(&self) -> u64
        ensures { result ≡ steps_of_deed self.now }
    {
        match self {
            PastDeed::Steps(_, count) => *count,
            PastDeed::Call(_, is_counted) | PastDeed::Load(_, is_counted) => u64::from(*is_counted),
            _ => 0,
        }
    }

    /// The stubs with which its steps are taken.
    pub fn stubs(&self) -> Stubs
        ensures { result ≡ stubs_of_deed self.now }
    {
        match self {
            PastDeed::Steps(stubs, _) => match stubs.table() {
                Some(stubs) => stubs.copied(),
                None => Stubs::new(),
            },
            _ => Stubs::new(),
        }
    }

    /// The line that takes its steps behind so many, and how many those are, if there are any.
    pub fn steps_behind(&self, skipped: u64) -> Option<(SteppingCommand<'_>, u64)>
        ensures { option_map taken_steps result ≡ steps_behind skipped self.now }
    {
        match self {
            PastDeed::Steps(_, count) if *count > skipped => {
                Some((SteppingCommand::Run, *count - skipped))
            }
            PastDeed::FaultingStep if skipped == 0 => Some((SteppingCommand::Run, 1)),
            PastDeed::Call(number, _) if skipped == 0 => Some((SteppingCommand::Call(*number), 1)),
            PastDeed::Load(text, _) if skipped == 0 => {
                Some((SteppingCommand::Load(text.bytes()), 1))
            }
            _ => None,
        }
    }
}
