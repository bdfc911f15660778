//! The words of memory that an instruction stores to and loads, as words of its line and lines below it.
#![tactic(auto)]

pub mod loaded;
pub mod stored;

pub use loaded::push_loaded;
pub use stored::{MOST_STORED, old_words, push_stored_below, push_stored_here};
