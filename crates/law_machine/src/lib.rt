//! Laws of the whole machine: what instructions mean, what the calls of heaps and of flex leave as
//! it was and where blocks slide, that heaps answer alone, that live bytes and all others stay, of
//! modules, frames and halts.
#![tactic(auto)]

pub mod flags;
pub mod flex;
pub mod flex_names;
pub mod halts;
pub mod heap_alone;
pub mod heap_calls;
pub mod heap_frame;
pub mod heap_runs;
pub mod live_bytes;
pub mod module_heaps;
pub mod module_swis;
pub mod modules;
pub mod moves;
pub mod other_bytes;
pub mod sliding;
pub mod sliding_names;
pub mod sliding_stores;

pub use instances::Instances;
