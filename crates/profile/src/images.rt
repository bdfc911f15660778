//! Program images by name, for scripts and module calls: bytes that are booted or loaded as
//! modules.
//!
//! Promise: a name has one image, which stays byte for byte, and each refusal leaves the table as
//! it was.
#![tactic(auto)]

pub mod error;
mod image;
pub mod module_header;
pub mod table;

pub use error::ImageError;
pub use table::{Images, is_image_name};
