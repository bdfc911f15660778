//! What a step finds, of what a trace shows: the word at the program counter, the words of memory
//! that its instruction loads and stores to, and whether a store call leaves the store as it is.
//!
//! Promise: what is listed of a step is all that it changes, and each of that did change.
#![tactic(auto)]

pub mod cause;
pub mod changes;
pub mod columns;
pub mod effects;
pub mod leaving;
pub mod loaded;
pub mod outside;
pub mod record_text;
pub mod shown_registers;
pub mod shown_words;
pub mod stored;
pub mod word_text;

pub use arm_step::AddressMap;
pub use cause::{Cause, called_swi};
pub use effects::{Effects, effects_of};
pub use leaving::{call_leaves, stays_in_heap};
pub use loaded::loaded_words;
pub use stored::{StoredWords, stored_words};
