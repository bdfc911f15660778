//! Instances of modules as a trace shows them, and which of them a store call made, moved, took away
//! and preferred.
#![tactic(auto)]

pub mod laws;
pub mod marks;
pub mod sameness;

pub use marks::{InstanceMark, InstanceMarks, marks_of};
pub use sameness::{has_same, is_preferred_anew, old_address};
