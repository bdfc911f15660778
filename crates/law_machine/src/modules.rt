//! Laws of modules: which blocks a tidy moves, and who is preferred after a removal.
#![tactic(auto)]

pub mod laws;
