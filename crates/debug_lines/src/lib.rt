//! The lines of a debugging script, and what each asks for: those of a script, the same untidy, and
//! the debugging language's own. It knows no machine.
//!
//! Promise: a line of a script of `rosm` means what it means there, and each other line one
//! request, or none.
#![tactic(auto)]

mod block_ends;
mod byte_lines;
mod expectations;
mod few_words;
mod line_kinds;
mod modes;
mod openers;
mod registers;
mod repeats;
mod requests;
mod settings;
mod status;
mod stepping;
mod tidy;
mod tracing;
mod whole_requests;

pub use block_ends::missing_ends;
pub use command_shell_lines::WordAddress;
pub use command_shell_lines::debug_words::is_spelt;
pub use expectations::Expectation;
pub use line_kinds::{asks_nothing, is_named_image, is_refused_block, takes_steps};
pub use modes::ModeCommand;
pub use openers::opens_block;
pub use registers::{banked_register_named, register_of_name};
pub use repeats::{RepeatedLine, is_known_line, is_repeatable_line, repeated_line, repeated_text};
pub use requests::{DebugCommand, DebugView, is_script_command, is_script_line};
pub use status::StatusPattern;
pub use stepping::{SteppingCommand, stepping_in};
pub use tidy::tidied;
pub use tracing::simple_command;
pub use whole_requests::{RequestReading, read_requests};
