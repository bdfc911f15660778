//! The core of the ARM2: its registers and status, and what an instruction that needs no memory
//! leaves of them.
//!
//! Promise: registers are those of the mode, and each operation leaves the result and the flags of
//! its definition.
#![tactic(auto)]

pub mod breaks;
pub mod condition;
pub mod cpu;
pub mod effect;
pub mod laws;
pub mod operand;
pub mod operate;
pub mod psr;
pub mod register_file;
pub mod registers;
pub mod turn;

pub use arm_decode::shifted::rotate_right;
pub use arm_decode::{
    ADDRESS_LIMIT, Address, Bits, BlockMode, BlockTransfer, Condition, Form, Indexing, Multiply,
    Offset, Operand, Operate, Operation, Shift, ShiftedRegister, Transfer, add, is_bit_set, row_of,
};
pub use cpu::Cpu;
pub use psr::{Mode, Psr};
pub use turn::StepEnd;
