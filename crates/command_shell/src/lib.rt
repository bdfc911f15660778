//! Scripts, for the programs: lines that build images, run a machine and look at it, and their
//! answers.
//!
//! Promise: the answers of a script are those of the definition, for every script, start and
//! budget.
#![tactic(auto)]

mod answers;
mod calls;
mod changing;
mod error;
mod fresh_session;
mod images;
mod memory;
mod nowhere;
mod script;
mod session;
mod stepping;
mod views;
pub mod watches;

pub use answers::{print_stepped, print_stop, print_unknown};
pub use assembler::{AsmError, Reason, assemble, is_label, labels_of_lines, word};
pub use calls::{CallEnd, OutsideCall};
pub use command_shell_lines::debug_words::{Stub, StubFlags, StubRegister, bytes_named};
pub use command_shell_lines::{Origin, RegisterNumber, ScriptCommand, after_spaces, is_block_end};
pub use debugger::{BreakError, Cpu, Machine, Mode, Psr, is_met, show_code, without_x_bit};
pub use error::RunError;
pub use nowhere::Nowhere;
pub use script::{Summary, run_script};
pub use session::Session;
