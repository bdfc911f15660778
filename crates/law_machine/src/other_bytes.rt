//! Laws: of the whole of memory, which bytes each call and each step of a machine writes. Every
//! other byte stays what it is, whether a block holds it, or it is free, or fills something up.
#![tactic(auto)]

pub mod laws;
