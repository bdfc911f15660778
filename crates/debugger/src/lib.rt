//! Views of the machine, printed for scripts: registers, memory, heaps, areas, modules and flex
//! blocks.
//!
//! Promise: each view writes a text that is a function of the written machine, and changes nothing.
#![tactic(auto)]

mod areas;
mod code;
mod flex;
mod heap;
mod memory;
mod modules;
mod registers;
pub mod views;

pub use areas::show_areas;
pub use assembler_text::disassemble;
pub use code::show_code;
pub use flex::show_flex;
pub use heap::show_blocks;
pub use memory::{hex_byte, show_memory};
pub use modules::show_modules;
pub use registers::{mode_name, push_flags, push_status, show_regs};
pub use swi_dispatch_guest::{
    AddressMap, BootError, BreakError, Breaks, CodeKind, Cpu, Frame, FrameKind, InstanceInfo,
    Instances, MAX_TEXT, Machine, Mode, ModuleInfo, Payload, Psr, Ran, TextEnd, is_met, next_word,
    text_at, without_x_bit,
};
