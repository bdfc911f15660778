//! What all store calls share: guests' strings, how a call is refused, and the block of an error.
//!
//! Promise: strings and errors are read and written as the definitions say, and a caller goes on
//! where it called.
//!
//! Its calls read strings (`text_at`, `string_in`) and the words in them (`name_part`,
//! `text_part`), read and write error blocks (`error_at`, `write_error`), and bring a guest back
//! from a call (`return_to`). None keeps anything between calls.
#![tactic(auto)]

pub mod errors;
pub mod frames;
pub mod refusal;
pub mod returns;
pub mod strings;
pub mod words;

pub use arm_core::{Cpu, Mode, Psr};
pub use instances_table::plans::{Given, private_word};
pub use refusal::Refusal;
pub use strings::{MAX_TEXT, TextEnd};
