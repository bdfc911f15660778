//! Laws of traces: what an instruction does to memory is shown, and a call of which nothing is shown does
//! nothing to it.
#![tactic(auto)]

pub mod laws;
