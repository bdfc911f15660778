//! Predecoded words: what carrying a word out needs of it, taken out of it once and kept beside it.
//!
//! Promise: what is kept of a word is what that word decodes to, or nothing.
#![tactic(auto)]

mod blocks;
mod branches;
pub mod kind;
mod making;
mod moving;
mod multiplying;
pub mod op;
mod operations;
pub mod table;
mod transferring;
mod transfers;

pub use kind::OpKind;
pub use op::Op;
pub use table::{DecodeCache, PLACES};
