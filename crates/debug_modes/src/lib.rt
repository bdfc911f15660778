//! The modes of a debugger, for `debug_session`: whether steps are shown one by one, and how many,
//! stubs, watches and counts, and the lines that change them.
//!
//! Promise: a mode changes just what its line says.
#![tactic(auto)]

mod answers;
mod changing;
mod counting;
pub mod expectations;
mod help;
mod modes;
mod own_answers;
mod stub_lines;
mod view_texts;

pub use answers::refused_line;
pub use command_shell::RegisterNumber;
pub use debug_labels::Instances;
pub use help::HELP;
pub use modes::DebugModes;
pub use own_answers::{forget_text, form_line, put_text, refusal_line, text_of, unknown_line};
pub use view_texts::view_text;
