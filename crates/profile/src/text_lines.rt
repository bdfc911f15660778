//! Text as lines, read one after another, for scripts, the assembler and pages.
#![tactic(auto)]

pub mod lines;

pub use lines::{Lines, cut, cut_line};
