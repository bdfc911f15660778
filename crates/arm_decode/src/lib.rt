//! The ARM2's instructions, from words to values and back, for the core and the assembler.
//!
//! Promise: a word and its instruction go both ways, and just the words of the data sheet that it
//! forbids or leaves open are refused.
//!
//! The table is that of the ARM2 data sheet; what the data sheet leaves undefined or forbids is
//! refused by name. `docs/INSTRUCTIONS.md` has it in words.
#![tactic(auto)]

pub mod action;
pub mod address;
pub mod bits;
pub mod condition;
pub mod decoding;
pub mod encoding;
mod fields;
pub mod form;
pub mod instr;
pub mod laws;
pub mod operand;
pub mod operation;
pub mod refusals;
pub mod register;
pub mod shift;
pub mod shifted;

pub use action::{Action, BlockTransfer, Multiply, Operate, Transfer};
pub use address::{Address, BlockMode, Direction, Indexing, Offset};
pub use bits::Bits;
pub use condition::Condition;
pub use decoding::decode;
pub use encoding::encode;
pub use form::{Form, row_of};
pub use instr::Instr;
pub use operand::Operand;
pub use operation::Operation;
pub use profile::images::{Images, is_image_name};
pub use profile::memory_map::{ADDRESS_LIMIT, APPLICATION_START, SVC_STACK_END};
pub use profile::text_lines::{Lines, cut, cut_line};
pub use profile::word::{Sum, add, is_bit_set, subtract};
pub use profile::{
    ErrorNumber, Fault, HexText, MOST_BYTES, ReadFault, Sink, Source, Stop, SwiName, WriteFault,
    error_text, push_all, push_parts,
};
pub use register::{Register, RegisterList};
pub use shift::{Shift, ShiftedRegister};
pub use shifted::{Shifted, rotate, rotate_through, shift_left, shift_right, shift_signed};
