//! Views for a debugger beside those of scripts: words of memory, the banks of registers, and bytes
//! as quoted text.
#![tactic(auto)]

mod banks;
mod quoted;
mod words;

pub use crate::{push_flags, push_status};
pub use banks::{push_banked_name, show_banks};
pub use quoted::push_quoted;
pub use words::show_words;
