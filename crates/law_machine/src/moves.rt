//! Laws: what lists of steps, and of calls from outside, do to a flex store and the module area.
#![tactic(auto)]

pub mod laws;
