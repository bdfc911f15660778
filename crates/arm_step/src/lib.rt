//! The ARM2 core, for the machine: registers, status, and one instruction at a time over the memory
//! map.
//!
//! Promise: one step leaves the core and memory of the data sheet's table, or its fault, and no
//! owned byte is changed.
#![tactic(auto)]

pub mod block;
pub mod block_fields;
pub mod execute;
pub mod fetch_page;
pub mod laws;
pub mod page_block;
pub mod page_words;
pub mod transfer;
pub mod words;

pub use address_map::{AddressMap, PAGE_SIZE};
pub use arm_core::{Cpu, Mode, Psr, StepEnd, StepEnd as Turn};
pub use arm_decode::shifted::{Shifted, rotate, shift_left, shift_right, shift_signed};
pub use arm_decode::{Stop, Sum, subtract};
pub use execute::step;
