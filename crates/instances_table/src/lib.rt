//! The table of loaded modules, for module calls: each with its header, its image, and its
//! instances. No memory is touched here.
//!
//! Promise: modules and instances are a list, and each call answers and changes it as its
//! definition says.
#![tactic(auto)]

pub mod additions;
mod changes;
pub mod copies;
mod counts;
pub mod editing;
pub mod images;
mod loaded;
mod names;
pub mod parts;
pub mod plans;
pub mod room;
pub mod table;

pub use images::is_in_module_area;
pub use loaded::MOST_INSTANCES;
pub use parts::{Handler, Image, Information, InstanceInfo, ModuleInfo, Name, NewInstance, Place};
pub use profile::{ENVIRONMENT_TEXT, error_text};
pub use table::InstanceTable;
