//! One region of raw bytes, all of a machine's memory, with its reads and writes, for
//! `address_map`; with the places of the memory map, the faults and the errors of store calls, for
//! all crates above.
//!
//! Promise: a read gives the byte that was written last, zero before that, and no byte outside the
//! region is touched.
#![tactic(auto)]

pub mod block;
pub mod error;
pub mod fault;
pub mod image;
mod lanes;
pub mod memory_map;
pub mod store;

pub use error::{ErrorNumber, error_text};
pub use fault::Fault;
pub use image::ImageBytes;
pub use memory_map::{ADDRESS_LIMIT, HEAP_DESCRIPTOR, HEAP_NAME, MOST_PAGES, PAGE_SIZE, RMA_START};
pub use store::RawStore;
