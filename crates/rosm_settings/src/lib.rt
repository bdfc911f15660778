//! What `rosm` does, for its `main` and the faces of `rosm_tools`: files as images, a script, its
//! answers, an exit status.
//!
//! Promise: the answers on the stream are those of the script, and each ending has its status and
//! its line.
#![tactic(auto)]

pub mod answering;
pub mod command_line;
pub mod gdb;
pub mod image_files;
pub mod process;
pub mod refusal;
pub mod saved_files;
pub mod watched;
pub mod words;

pub use crate::command_line::{Files, Settings, SettingsError, settings};
pub use answering::{run, run_to_stream};
pub use command_shell::RunError;
pub use process::{exit_code, read_settings, run_on_standard_streams};
pub use refusal::SettingsRefusal;
pub use watched::Watched;
