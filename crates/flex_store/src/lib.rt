//! The flex store, for the flex calls: blocks that slide to fill its gaps, each with an anchor that
//! follows.
//!
//! Promise: blocks lie without gaps, each anchor has the address of its block, and all that others
//! hold stays.
#![tactic(auto)]

mod block;
mod blocks;
mod flex;
pub mod laws;
mod marks;
mod shift;
mod slide;
mod splice;
mod walk;

pub use blocks::{FlexBlock, FlexBlocks};
pub use flex::Flex;
