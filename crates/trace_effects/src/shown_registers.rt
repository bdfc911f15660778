//! The registers that are shown of a step: those that it writes, though they stay the same, and those that
//! differ after it.
#![tactic(auto)]

mod registers;

pub use registers::{WrittenRegisters, shown_registers};
