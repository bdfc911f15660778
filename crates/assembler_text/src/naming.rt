//! The words of assembler text, for reading it: pieces of a line, names, numbers and labels.
#![tactic(auto)]

pub mod expressions;
pub mod labels;
pub mod mnemonics;
pub mod names;
pub mod numerals;
pub mod reason;
pub mod swi_names;
pub mod words;

pub use crate::disassemble;
pub use expressions::{Value, expression};
pub use labels::Labels;
pub use mnemonics::{Command, Mnemonic, mnemonic_named};
pub use reason::Reason;
pub use swi_names::swi_named;
pub use words::Read;
