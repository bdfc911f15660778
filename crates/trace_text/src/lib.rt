//! The lines of a traced step: its address, its word and its instruction, and what it leaves
//! behind.
//!
//! Promise: a step's text is a function of the machine before it and of what the step leaves.
#![tactic(auto)]

pub mod areas;
pub mod below;
pub mod calls;
pub mod core_text;
pub mod end;
pub mod errors;
pub mod instruction;
pub mod start;
pub mod strings;

pub use below::push_prints_line;
pub use start::StepStart;
pub use trace_effects::changes::following_word;
pub use trace_effects::columns::{LineRooms, push_line};
pub use trace_effects::word_text::{old_words, push_stored_below, push_stored_here};
pub use trace_effects::{Cause, StoredWords};
pub use trace_store_text::heaps::HeapLimits;
pub use trace_store_text::items::ItemChange;
pub use trace_store_text::modules::InstanceMark;
pub use trace_store_text::{Machine, StoreCopy, without_x_bit};
