//! The text of records: JSON objects, one a line, of printing ASCII characters.
#![tactic(auto)]

mod text;
mod writing;

pub use text::{Bracket, RecordText};
pub use writing::push_records;
