//! The lines of a script, for the shell: reading them, and what each asks for. It knows no machine.
//!
//! Promise: each line means the one request whose words it has, or none.
#![tactic(auto)]

mod blocks;
pub mod debug_words;
mod error;
mod failed_blocks;
mod hex_pairs;
mod kept_text;
mod numbers;
mod operands;
mod reading;
mod requests;

pub use assembler_text::naming::words::after_spaces;
pub use blocks::{Block, read_block, skip_block};
pub use error::ReadingError;
pub use failed_blocks::FailedBlocks;
pub use hex_pairs::hex_pair;
pub use kept_text::KeptText;
pub use numbers::number_of;
pub use operands::{Origin, RegisterNumber, WordAddress, count_up_to};
pub use reading::read_script;
pub use requests::{ScriptCommand, command_of, is_block_end};
