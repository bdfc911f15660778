//! Laws: which bytes of live blocks change, over whatever a machine does.
#![tactic(auto)]

pub mod laws;
