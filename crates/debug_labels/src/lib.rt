//! The labels of assembled images, for debuggers: where each stands now, words that name places,
//! lines with such words as lines with numbers, and places as text.
//!
//! Promise: a word that names a place means the address where its label stands now.
#![tactic(auto)]

mod images;
mod labels;
mod lines;
mod module_swis;
pub mod place_views;
mod places;
mod reasons;
mod standing;
mod views;
mod words;

pub use debugger::views::{push_banked_name, push_flags, push_quoted, show_banks, show_words};
pub use debugger::{
    InstanceInfo, Instances, MAX_TEXT, ModuleInfo, Payload, TextEnd, hex_byte, next_word, text_at,
};
pub use images::ImagePlace;
pub use labels::LabelTable;
pub use places::PlaceLabel;
pub use words::PlaceNames;
