//! The text of instructions, for views and the assembler: each word has one at its address.
//!
//! Promise: a word's text is a function of the word and its address.
#![tactic(auto)]

pub mod names;
pub mod naming;
pub mod numbers;
pub mod operands;
pub mod printing;
pub mod transfers;

pub use arm_decode::{
    ADDRESS_LIMIT, ErrorNumber, HexText, Images, Lines, MOST_BYTES, ReadFault, Source, cut,
    cut_line, error_text, is_image_name,
};
pub use printing::disassemble;
