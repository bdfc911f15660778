//! Lists for debugging scripts: modules, with their commands and places, the lines of an assembled block
//! and their errors, and words of images that differ; and how far a long run is, for a terminal.
//!
//! Promise: a list shows what is there, the errors of a block are those of its lines, and a run that reports
//! how far it is comes to what it comes to at once.
#![tactic(auto)]

mod block_error_texts;
pub mod block_errors;
mod commands;
mod comparing;
mod describing;
mod image_parts;
mod listing;
mod requests;
pub mod run_meter;
mod source_listing;
mod tables;
mod tails;

pub use block_error_texts::with_errors;
pub use command_shell_lines::Origin;
pub use commands::{CommandSearch, FoundCommand, command_found};
pub use comparing::push_comparison;
pub use debug_labels::place_views::{line_on, names_on};
pub use debug_tables::byte_writes::put_bytes;
pub use describing::{module_described, module_meant};
pub use image_parts::{code_place, syntax_line, text_of_image};
pub use listing::commands_text;
pub use requests::{ModuleRequest, module_request};
pub use source_listing::{keep_source, listing_text};
pub use tables::{CommandEntry, loaded_word};
pub use tails::word_count;
