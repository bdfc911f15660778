//! The places and limits of the machine's memory, in bytes.
//!
//! The application space and the module area stand where RISC OS 3 has them ("Memory management"
//! in the Programmer's Reference Manual); the rest of the layout is this project's own.

/// The bytes of a page.
pub const PAGE_SIZE: u32 = 4096;

/// The most pages that a machine can have.
pub const MOST_PAGES: u32 = 1024;

/// The first address past the 26-bit address space.
pub const ADDRESS_LIMIT: u32 = 0x0400_0000;

/// Where the application space starts.
pub const APPLICATION_START: u32 = 0x8000;

/// Where the relocatable module area, area 1, starts.
pub const RMA_START: u32 = 0x0180_0000;

/// The most bytes that the module area can have.
pub const RMA_MAXIMUM: u32 = 4_194_304;

/// Where the system pages start: the stack of supervisor mode, and the page of fixed words.
pub const SYSTEM_START: u32 = 0x01C0_0000;

/// How many system pages there are.
pub const SYSTEM_PAGES: u32 = 3;

/// The end of the stack of supervisor mode, which grows down from here.
pub const SVC_STACK_END: u32 = 0x01C0_2000;

/// The private words of the module instances, one for each of 64 slots.
pub const PRIVATE_WORDS: u32 = 0x01C0_2000;

/// The error block: an error's number and its text.
pub const ERROR_BLOCK: u32 = 0x01C0_2100;

/// The environment text.
pub const ENVIRONMENT_TEXT: u32 = 0x01C0_2200;

/// Where the window of the created areas starts.
pub const AREA_WINDOW_START: u32 = 0x0200_0000;

/// The end of the window of the created areas.
pub const AREA_WINDOW_END: u32 = 0x0300_0000;

/// Where module code returns to. It is never mapped.
pub const RETURN_GATE: u32 = 0x0380_0000;

/// The first word of a heap's descriptor, `Heap` in ASCII.
pub const HEAP_NAME: u32 = 0x7061_6548;

/// The bytes of a heap's descriptor.
pub const HEAP_DESCRIPTOR: u32 = 16;

/// The most bytes of an image, of a script and of an assembled program.
pub const MOST_BYTES: usize = 1_048_576;
