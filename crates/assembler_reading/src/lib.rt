//! Instructions as they are written, read into their words, for the assembler.
//!
//! Promise: an instruction is read just where the grammar has it, and its word is that of its text.
#![tactic(auto)]

pub mod addresses;
pub mod instructions;
pub mod laws;
pub mod operands;
pub mod operating;
pub mod register_lists;

pub use assembler_text::naming::labels::is_label;
pub use assembler_text::naming::words::{
    Read, after_word, byte, comma, is_end, is_name, spaces, word,
};
pub use assembler_text::naming::{Labels, Reason, Value, disassemble, expression};
pub use instructions::instruction;
