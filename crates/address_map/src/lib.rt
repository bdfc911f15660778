//! The 26-bit address space, for the core and the store calls: mapped pages, bytes, records and
//! faults.
//!
//! Promise: bytes, classes of words and records are functions of an address, a store changes one of
//! them, and each refused access has its fault.
#![tactic(auto)]

pub mod class;
pub mod follow;
pub mod frame;
pub mod item;
pub mod laws;
pub mod lent;
pub mod map;
pub mod marks;
pub mod moves;
pub mod owned;
pub mod pages;
pub mod records;
pub mod region;
mod table;
pub mod view;

pub use class::Class;
pub use follow::{BlockMove, moved_to};
pub use item::Item;
pub use laws::pages_are_counted;
pub use map::AddressMap;
pub use raw_store::memory_map::{ERROR_BLOCK, PAGE_SIZE, RETURN_GATE};
pub use raw_store::{ErrorNumber, HEAP_DESCRIPTOR, HEAP_NAME, RMA_START};
pub use region::{Kind, Region, do_meet};
pub use view::View;
