//! A tidy of the module area, for module calls: blocks slide together, private words and images
//! follow. The private words and images are those that named the blocks.
#![tactic(auto)]

mod follow;
pub mod laws;
mod movable;
pub mod tidy;

pub use tidy::slide;
