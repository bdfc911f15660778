//! The words of memory that are shown of a step or a line: all that differ.
#![tactic(auto)]

mod words;

pub use words::{ShownWord, changed_words, word_in};
