//! Frame: what the flex store is on a machine's memory, and that all calls keep it.
#![tactic(auto)]

pub mod laws;
pub mod module_state_laws;
