//! GDB over bytes, as they come: bytes to requests, requests to answers, and answers to bytes.
//!
//! Promise: what is answered doesn't depend on how bytes are cut, and looking changes nothing.
#![tactic(auto)]

mod laws;
mod server;
pub mod session;

pub use debug_session::RunError;
pub use gdb_machine::known_bytes;
pub use laws::pieces_are_served;
pub use server::GdbServer;
