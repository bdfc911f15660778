//! Laws: what a guest sees in the blocks of the flex store, over the calls that change blocks.
#![tactic(auto)]

pub mod laws;
