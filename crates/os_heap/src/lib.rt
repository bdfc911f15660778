//! The heaps of OS_Heap, for the store calls and the module area: their only record is guest
//! memory. Blocks are found by the words before them, free room by links kept in it.
//!
//! Promise: each call answers and leaves what its definition says, its errors come in their order,
//! and all heaps stay sound.
#![tactic(auto)]

pub mod blocks;
pub mod change;
pub mod describe;
mod forget;
mod free;
mod get;
mod guests;
pub mod heaps;
pub mod init;
pub mod laws;
mod obstacles;
pub mod payload;
mod relocate;
pub mod resize;
pub mod room;
pub mod size;

pub use heaps::Heaps;
pub use os_heap_words::marks::{make, mark_item};
pub use os_heap_words::words::{BASE, follow, put, put_free, put_link, word};
pub use os_heap_words::{
    AddressMap, BlockMove, Blocks, Counted, Item, Kind, changed_by, do_meet, moved_to, round_up_8,
    total_for,
};
pub use payload::Payload;
