//! Dynamic areas, for the store calls and the module area: ranges that grow by pages out of one
//! pool.
//!
//! Promise: pages go between an area and the pool as the definition says, none with an anchor or a
//! record, and no heap changes.
#![tactic(auto)]

pub mod area;
pub mod areas;
pub mod change;
pub mod create;
mod gaps;
pub mod laws;
pub mod measure;
pub mod remove;
pub mod start;
mod table;

pub use area::{Area, Changed, Created, Extent, MOST_NAME_BYTES, Wanted};
pub use areas::Areas;
pub use laws::areas_count_pages;
pub use os_heap::{
    AddressMap, BASE, BlockMove, Blocks, Heaps, Item, Kind, Payload, changed_by, follow, make,
    mark_item, moved_to, put, put_free, put_link, round_up_8, total_for, word,
};
pub use profile::{ErrorNumber, HEAP_DESCRIPTOR, PAGE_SIZE, RMA_MAXIMUM, RMA_START};
pub use start::start_memory;
pub use table::MODULE_AREA;
