//! Flex blocks that a store call makes, moves, resizes and takes away, by their anchors.
#![tactic(auto)]

pub mod laws;
pub mod lookup;

pub use lookup::{find_block, is_same_block};
