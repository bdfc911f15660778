//! One heap as the words of memory that spell it: its items, found by the words before them, and
//! its free room, linked by words kept in it. Nothing is said here of other heaps.
//!
//! Promise: memory spells the list of blocks that a claim, a free or a new size has by the
//! definitions on lists.
#![tactic(auto)]

pub mod blocks;
pub mod by_links;
pub mod claim;
pub mod counted;
pub mod free;
pub mod free_items;
mod links;
pub mod lists;
pub mod marks;
pub mod neighbour;
pub mod refit;
mod sums;
pub mod walk;
pub mod words;

pub use address_map::{
    AddressMap, BlockMove, Class, ErrorNumber, HEAP_DESCRIPTOR, HEAP_NAME, Item, Kind, RMA_START,
    Region, do_meet, moved_to,
};
pub use blocks::Blocks;
pub use claim::total_for;
pub use counted::Counted;
pub use sums::{changed_by, round_up_8};
