//! Laws: what a word does that was predecoded, shown by the parts that are kept of it.
#![tactic(auto)]

pub mod laws;
