//! Laws: the blocks of the flex store by names, which stay as blocks move. Each law is the contract
//! of a function that does nothing.
#![tactic(auto)]

pub mod laws;
