//! What a line EXPECT of a debugging script finds, for `debug_session`: whether what should be so is
//! so, and what is so instead.
#![tactic(auto)]

pub mod answers;
pub mod checks;
pub mod dump;
pub mod endings;
pub mod halted;
pub mod reasons;
pub mod reports;
pub mod status;
pub mod why;

pub use checks::{Mismatch, SeenMachine, check};
pub use debug_labels::{show_banks, show_words};
pub use dump::show_dump;
pub use endings::{answer_parts, begins_ending, push_line_answer};
pub use halted::{halting_fault, push_halted};
pub use reasons::push_reason;
pub use status::status_with;
pub use why::{push_why_below, show_why};
