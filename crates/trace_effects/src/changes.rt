//! What two cores differ in: the registers of all banks, the flags, the mode, and where it goes on.
#![tactic(auto)]

pub mod laws;
pub mod registers;
pub mod status;

pub use registers::{REGISTERS, RegisterChange, home_of, next_change};
pub use status::{Flag, changed_flag, changed_mode, following_word, jump_of};
