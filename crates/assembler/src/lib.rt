//! The assembler, for scripts: the text of a program to its bytes at an address.
//!
//! Promise: a program is the pieces of its lines under its labels, or the first line that is
//! refused has its reason.
//!
//! `docs/ASSEMBLER.md` has the grammar by example.
#![tactic(auto)]

pub mod assembled;
mod assembling;
pub mod directives;
pub mod error;
mod items;
pub mod laws;
mod line;
mod output;
pub mod program;
mod statements;

pub use assembler_reading::{Labels, Reason, disassemble, is_label, word};
pub use assembling::{assemble, assemble_lines, labels_of_lines};
pub use error::AsmError;
pub use program::Program;
