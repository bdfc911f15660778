//! Going back in time: the past of a machine is what was done to it since it was made, and the machine
//! at a moment of it is made anew by doing the same again.
//!
//! Promise: going back leaves the machine that was there then, and what is found last is the last.
#![tactic(auto)]

mod act;
mod again;
mod answering;
mod kept_stubs;
pub mod laws;
mod lines;
mod noting;
mod past;
mod scan;
mod search;
mod texts;

pub use act::{Act, PastDeed};
pub use again::deed_again;
pub use answering::PastSetting;
pub use command_shell_lines::KeptText;
pub use debug_lines::DebugView;
pub use debug_tables::Machine;
pub use kept_stubs::KeptStubs;
pub use lines::{PastCommand, last_steps_asked, past_line};
pub use noting::{SteppingNote, StepsBefore, has_returned, is_faulted};
pub use past::Past;
pub use search::{PastFound, Sought};
