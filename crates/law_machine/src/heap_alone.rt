//! Laws: a guest's heap in a whole machine answers by itself, whatever else the machine does.
#![tactic(auto)]

pub mod laws;
