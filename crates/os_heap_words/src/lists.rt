//! A heap as a list of blocks and free room, and the words that it spells, for `os_heap` and laws
//! of heaps. It has what the heap calls do to the list, and laws of both.
#![tactic(auto)]

pub mod laws;
