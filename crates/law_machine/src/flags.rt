//! Law: what an operation that adds or subtracts leaves, by the exact number that it stands for.
#![tactic(auto)]

pub mod laws;
