//! What the words of `rosm_gdb` ask for, the images and lines that its machine begins with, and why it
//! ends early.
#![tactic(auto)]

mod options;
pub mod refusal;
pub mod serve_error;
pub mod start;
pub mod words;
