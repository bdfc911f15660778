//! The machine, for the debugger and the shell: a guest with all that its instructions and store
//! calls act on, and what its steps print, one step at a time or many.
//!
//! Promise: `step`, `run`, `boot` and calls from outside leave the written machine's state after
//! them and print what it does, and what holds of every machine stays.
//!
//! `Machine` (machine.rt) is all that others call. Its `Guest` (guest.rt) is the written machine
//! itself; the rest of its methods, one file for each kind of call, are the guest's.
#![tactic(auto)]

pub mod additions;
pub mod boot_error;
pub mod calls;
pub mod errors;
pub mod guest;
pub mod halt;
pub mod law_frames;
pub mod laws;
pub mod lending;
pub mod machine;
pub mod module_calls;
pub mod module_steps;
pub mod outside;
pub mod running;

pub use arm_run::{BreakError, Breaks, Cpu, Mode, Psr, is_met};
pub use boot_error::BootError;
pub use guest::without_x_bit;
pub use halt::Halt;
pub use machine::Machine;
pub use os_heap::payload::Payload;
pub use os_heap::{AddressMap, Blocks, Heaps, Item};
pub use profile::{
    HEAP_DESCRIPTOR, PAGE_SIZE, PRIVATE_WORDS, Sink, WriteFault, push_all, push_parts,
};
pub use running::Ran;
pub use swi_dispatch_plans::{
    Area, Areas, CodeKind, Flex, FlexBlock, FlexBlocks, Frame, FrameKind, InstanceInfo, Instances,
    MAX_TEXT, ModuleInfo, Refusal, TextEnd, areas_count_pages, next_word, text_at,
};
