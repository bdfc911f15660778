//! How often the steps of a debugger are taken at each word of memory.
#![tactic(auto)]

mod counts;
pub mod laws;

pub use counts::StepCounts;
