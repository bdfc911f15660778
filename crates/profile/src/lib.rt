//! Names, numbers and limits of the machine, words and their sums, and devices, for all crates
//! above. Devices are what scripts are read from and answers written to.
//!
//! Promise: every number and name is a table that definitions and code share, and what is pushed to
//! a device is the bytes that it has taken.
#![tactic(auto)]

pub mod config;
pub mod device;
pub mod digits;
pub mod images;
pub mod reason;
pub mod sink;
pub mod source;
pub mod stop;
pub mod swi;
pub mod text_lines;
pub mod text_sink;
pub mod word;

pub use config::Config;
pub use device::Device;
pub use digits::HexText;
pub use raw_store::memory_map::{
    ENVIRONMENT_TEXT, HEAP_DESCRIPTOR, MOST_BYTES, PAGE_SIZE, PRIVATE_WORDS, RMA_MAXIMUM, RMA_START,
};
pub use raw_store::{ErrorNumber, Fault, ImageBytes, error_text, memory_map};
pub use reason::{AreaReason, HeapReason, ModuleReason};
pub use sink::{MemorySink, Sink, WriteFault, push_all, push_parts};
pub use source::{MemorySource, ReadFault, Source};
pub use stop::Stop;
pub use swi::SwiName;
