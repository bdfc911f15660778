//! Laws: what calls on areas, modules and flex blocks leave of a guest's heap.
#![tactic(auto)]

pub mod laws;
