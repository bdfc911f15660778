//! Debugging scripts, for the program `rosm_debug`: lines of a script and lines of their own, which
//! look at a machine, change it, and say what they expect of it; each is answered at once.
//!
//! Promise: lines of `rosm` are answered as by `rosm`, and pieces of lines as the whole.
#![tactic(auto)]

mod answering;
mod last_steps;
pub mod laws;
mod looking;
mod own_lines;
mod recording;
mod refusing;
mod script_lines;
mod session;
mod stepping_lines;

pub use command_shell_lines::KeptText;
pub use debug_modules::{
    CheckTally, PastDeed, PastFound, ReportForm, RunMeter, Sought, begins_ending, is_faulted,
    push_missing_end,
};
pub use debug_tables::byte_writes::put_bytes;
pub use debug_tables::routines::enter;
pub use debug_tables::{OutsideCall, RunError, Session, StubDeed, print_stop};
pub use session::{DebugSession, DebugSettings};
