//! Laws: which steps and calls of a machine halt it or are refused, and what they leave then.
#![tactic(auto)]

pub mod laws;
