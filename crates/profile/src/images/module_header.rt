//! The header of a relocatable module, read from the bytes of its image, for the table of modules.
#![tactic(auto)]

pub mod fault;
pub mod header;
mod title;
mod words;

pub use crate::ErrorNumber;
pub use crate::memory_map::{PRIVATE_WORDS, RMA_MAXIMUM, RMA_START};
pub use fault::HeaderFault;
pub use header::Header;
pub use title::is_title_byte;
