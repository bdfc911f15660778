//! Laws: what calls on one heap answer by its own list and bytes, whatever else there is.
#![tactic(auto)]

pub mod laws;
