//! Frame: calls on heaps, areas and images keep the flex store's bytes, its anchors and its range.
#![tactic(auto)]

pub mod laws;
