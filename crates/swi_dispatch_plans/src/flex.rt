//! The flex calls, for the machine: from a caller's registers to the flex store and back. They are
//! Flex_Init, Flex_Alloc, Flex_Free, Flex_Size, Flex_Extend and Flex_MidExtend.
//!
//! `call_flex` takes the core, the memory and the flex store's place: what a caller's registers ask
//! for, and where the answer goes. Between calls holds what it asks (`CanCallFlex`); `LeavesFlex`
//! says that it keeps it, and the areas and the records of modules too.
#![tactic(auto)]

pub mod calls;

pub use calls::call_flex;
pub use flex_store::Flex;
