//! The slide of a heap's movable blocks towards its start, for a tidy of the module area. The free
//! room between them becomes one.
#![tactic(auto)]

mod items;
pub mod laws;
pub mod moves;
mod steps;

pub use dynamic_areas::{BlockMove, moved_to};
pub use moves::{Moves, slide};
