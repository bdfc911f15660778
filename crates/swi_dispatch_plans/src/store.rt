//! The store calls on heaps and dynamic areas, for the machine. They are OS_Heap, OS_DynamicArea,
//! OS_ReadDynamicArea and OS_ChangeDynamicArea.
//!
//! Each takes the core, the memory and, where it needs them, the areas: what a caller's registers
//! ask for, and where the answer goes. Between calls holds what `os_heap` and `dynamic_areas` ask
//! (`IsSoundMap`, `IsAreaMap`); `LeavesSound` says that each of them keeps it, and the flex store
//! and the other recorded ranges too.
#![tactic(auto)]

pub mod areas;
pub mod heaps;

pub use areas::{call_area, change_area, change_error, read_area};
pub use heaps::call_heap;
