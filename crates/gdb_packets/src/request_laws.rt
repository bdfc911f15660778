//! The law of GDB's requests: the reading of packets takes the texts of their grammar, and no others.
#![tactic(auto)]

pub mod laws;
