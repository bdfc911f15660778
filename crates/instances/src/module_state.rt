//! Frame: memory with heaps and areas, private words and environment text, which module calls act
//! on.
#![tactic(auto)]

pub mod laws;
pub mod system_pages;

pub use system_pages::{private_value, put_private, put_text};
