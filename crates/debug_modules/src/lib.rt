//! Lines of a debugging script that enter the code of loaded modules, and the steps that lines take, with what
//! is kept of them.
//!
//! Promise: code finds what the manual says, and where a line is not done, nothing is changed.
#![tactic(auto)]

mod answering;
mod comparing;
mod context;
mod entering;
mod laws;
mod plans;
mod services;
mod taking;

pub use answering::{ModuleAnswer, answer_module_line};
pub use debug_history::{
    KeptStubs, Past, PastDeed, PastFound, PastSetting, Sought, deed_again, is_faulted,
    last_steps_asked,
};
pub use debug_listing::block_errors::errors_of_block;
pub use debug_listing::run_meter::{RunMeter, answer_metered};
pub use debug_listing::{keep_source, line_on, names_on, with_errors};
pub use debug_modes::expectations::reports::{
    CheckTally, ReportForm, push_answer, push_fail, push_missing_end, push_pass, push_refusal,
    push_summary,
};
pub use debug_modes::expectations::{
    SeenMachine, answer_parts, begins_ending, check, halting_fault, push_halted, push_line_answer,
    push_why_below, status_with,
};
pub use debug_modes::{
    DebugModes, forget_text, form_line, put_text, refusal_line, refused_line, text_of,
    unknown_line, view_text,
};
pub use debug_runs::{ImagePlace, LabelTable, answer_stepping};
pub use entering::ModuleEntry;
pub use laws::{service_calls_in_turn, tail_words_are_words};
pub use services::ServiceCode;
pub use taking::take_steps;
