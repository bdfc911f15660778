//! The lines below a store call, of what it changes in the machine's store.
//!
//! Promise: lines below a call have each item, instance and block that changed, or count it.
#![tactic(auto)]

pub mod flex;
pub mod flex_lines;
pub mod frame_words;
pub mod heap_lines;
pub mod heaps;
pub mod image_lines;
pub mod item_lines;
pub mod items;
pub mod module_lines;
pub mod modules;
pub mod store_lines;
pub mod word_lines;

pub use debugger::views::{push_banked_name, push_quoted};
pub use debugger::{Frame, Machine, disassemble, mode_name, without_x_bit};
pub use heaps::heap_pages;
pub use store_copies::{Area, PageRange, StoreCopy};
pub use store_lines::push_store_lines_in;
