//! Law: which frames of module code a step leaves open.
#![tactic(auto)]

pub mod laws;
