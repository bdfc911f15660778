//! Breaks, for runs of the machine: the addresses at which a run stops.
#![tactic(auto)]

pub mod breaks;

pub use breaks::{BreakError, Breaks};
