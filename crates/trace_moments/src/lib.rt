//! What a step or a line leaves of a machine, as values: registers that are written, words that are
//! loaded and stored, and what differs of heaps, flex blocks, areas, modules and frames, without a bound;
//! and how records spell what differs of the core and of words.
//!
//! Promise: the lists of a moment, replayed on the machine before it, make the one after it; those of the
//! core and of words are spelt byte for byte.
#![tactic(auto)]

mod areas;
mod core_fields;
mod flex;
mod frames;
mod items;
pub mod law_replay;
pub mod law_trace;
mod modules;
mod names;
mod stored;
mod words;
mod written;

pub use areas::{ShownArea, ShownAreas, changed_areas, shown_areas};
pub use core_fields::{push_core, push_core_changes};
pub use flex::{FlexChange, FlexRange, changed_blocks, changed_range, flex_range_of};
pub use frames::{FrameChanges, ShownFrame, changed_frames};
pub use items::{SameBlock, all_changed_items, resized_block, slid_blocks};
pub use law_machine::Instances;
pub use modules::changed_modules;
pub use names::{mode_name, plain_name, register_name};
pub use stored::{loaded_words, stored_changes, words_at};
pub use swi_dispatch_answers::frames::{CodeKind, FrameKind};
pub use trace_store_text::heaps::limits_of;
pub use trace_store_text::items::ItemWalk;
pub use trace_store_text::modules::marks_of;
pub use words::{push_memory, push_reads, push_words};
pub use written::{written_by_call, written_by_instruction};
