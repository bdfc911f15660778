//! Laws of heaps in blocks of the module area: which of them calls on modules forget.
#![tactic(auto)]

pub mod laws;
