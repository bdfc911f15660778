//! A copy of a machine's store, and the words of memory that differ from it.
//!
//! Promise: a copy is the store as it was, and just the mapped words that differ are listed.
#![tactic(auto)]

pub mod changes;
mod lanes;
pub mod laws;
mod pages;
pub mod store_copy;

pub use changes::{
    MOST_CHANGES, PageRange, WordChange, WordChanges, changed_words, changed_words_in,
};
pub use store_copy::StoreCopy;
pub use swi_dispatch_guest::{
    Area, Blocks, Flex, FlexBlock, FlexBlocks, Heaps, InstanceInfo, Instances, ModuleInfo,
};
