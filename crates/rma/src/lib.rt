//! The relocatable module area, for module calls: a heap that grows as blocks are claimed.
//!
//! Promise: the module area is a heap whose calls are those of a heap, growing where pages are
//! left, and a slide keeps each block's bytes.
#![tactic(auto)]

pub mod area;
pub mod claim;
pub mod copies;
mod errors;
pub mod extend;
pub mod flex_frame;
pub mod free;
mod growth;
pub mod heap_slide;
pub mod images;
pub mod in_place;
pub mod laws;
pub mod new_images;
pub mod slide;

pub use crate::heap_slide::{BlockMove, Moves};
pub use area::Rma;
pub use dynamic_areas::{
    AddressMap, Area, Areas, Blocks, Changed, ErrorNumber, HEAP_DESCRIPTOR, Heaps, Item, RMA_START,
    Wanted, areas_count_pages, start_memory,
};
