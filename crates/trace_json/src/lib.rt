//! Moments of a machine as records, JSON objects: what stands in it at the start, and what each
//! step and each line leaves.
//!
//! Promise: what differs of the core and of words makes the machine after of the one before; rows of
//! `transcripts/records` show the rest.
#![tactic(auto)]

mod before;
mod calls;
mod changes;
mod flex;
mod frames;
mod heaps;
mod images;
mod lists;
mod others;
mod skip;
mod state;
mod step;
mod stops;

pub use before::{MemoryBefore, StepKind};
pub use changes::{MachineCopy, push_changed_store, push_changes, push_skip_changes};
pub use images::push_image;
pub use others::are_others;
pub use skip::push_skip;
pub use state::push_state;
pub use step::StepBefore;
pub use stops::{error_name, push_error, push_stop, stop_reason};
pub use trace_moments::law_trace::laws::plain_steps_store;
pub use trace_text::Machine;
