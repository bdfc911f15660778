//! Debugging scripts as they come, from a terminal, a file or standard input, for `rosm_tools`: each line
//! answered as soon as it is whole, or all of them as a transcript.
//!
//! Promise: it writes what `debug_session` answers, to the end of the input.
#![tactic(auto)]

mod answering;
mod front_lines;
mod going_on;
mod include_words;
mod including;
mod including_script;
mod prompted;
mod shown;
mod spelling;
pub mod talk;
mod transcript;
mod typing;
mod whole_lines;

pub use debug_session::DebugSession;
pub use going_on::talk_behind_script;
pub use include_words::path_beside;
pub use including::{FileFault, IncludeRefusal, ScriptFiles};
pub use including_script::{IncludingScript, SavingSource};
pub use prompted::PromptedLines;
pub use shown::ShownAnswers;
pub use transcript::show_transcript;
pub use typing::DebugTyping;
