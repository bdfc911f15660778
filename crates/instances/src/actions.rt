//! What each action of a plan does to modules, to memory and to the records of images, for
//! `instances`.
#![tactic(auto)]

pub mod acting;
pub mod adding;
pub mod code;
pub mod laws;
pub mod removal;

pub use acting::act;
pub use adding::{give_up, insert, instantiate};
pub use code::code_of;
pub use removal::{free_private, remove};
