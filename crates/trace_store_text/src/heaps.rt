//! Heaps as a store call leaves them: their limits, read from the memory before it and after.
#![tactic(auto)]

pub mod limits;

pub use limits::{HeapLimits, heap_pages, limits_of};
