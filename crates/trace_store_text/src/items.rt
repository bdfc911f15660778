//! The items of a heap that a store call makes and takes away, by their addresses.
#![tactic(auto)]

pub mod changes;
pub mod laws;
pub mod walk;

pub use changes::{ItemChange, ItemChanges, MOST_ITEMS, changed_items};
pub use walk::ItemWalk;
