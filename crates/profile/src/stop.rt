//! Why a run of steps ended, and the exit status of a program after it.

ghost use Rattle.std.specs.Prelude.{◌≡◌};
ghost use Rattle.profile.specs.Status.{status_after};

use crate::Fault;

/// Why a run of steps ended.
#[derive(Clone, Copy, PartialEq, Eq)]
pub enum Stop {
    /// The guest called OS_Exit.
    Exit,
    /// All steps of the budget were taken.
    Budget,
    /// The program counter came to this address, which is among the breaks.
    Break(u32),
    /// A step ended in a fault.
    Fault(Fault),
}

/// The exit status after a script: 0 where the last stop was OS_Exit, 1 where it was a fault, and
/// 3 where steps or breaks ended it, or nothing ran.
pub fn stop_status(last: Option<Stop>) -> u8
    ensures { result ≡ status_after last }
{
    match last {
        Some(Stop::Exit) => 0,
        Some(Stop::Fault(_)) => 1,
        Some(Stop::Budget | Stop::Break(_)) | None => 3,
    }
}
