//! Laws of SWIs of modules: the instance that their code is entered for, and what goes back.
#![tactic(auto)]

pub mod laws;
