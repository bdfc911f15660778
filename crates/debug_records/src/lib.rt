//! Debugging scripts as records, JSON objects one a line: the machine at the start, each line, each
//! of its steps and its answer.
//!
//! Promise: each line, step and answer has its record, safe to stand in a page.
#![tactic(auto)]

mod answer_heads;
mod answers;
mod counts;
mod ends;
mod images;
mod lines;
mod recorder;
mod records;
mod script;
mod standing;
mod steps;
mod taking;

pub use command_shell_lines::read_script;
pub use debug_session::{
    DebugSession, DebugSettings, ReportForm, RunError, RunMeter, begins_ending, push_missing_end,
};
pub use recorder::Recorder;
pub use script::record_script;
