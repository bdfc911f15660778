//! GDB on a machine: what a request of its remote protocol does to a session, and what it is answered.
#![tactic(auto)]

mod acting;
mod back;
mod changing;
mod going;
mod laws;
mod lines;
mod looking;
mod programs;
mod running;
mod session;
mod stepping;
mod storing;

pub use gdb_machine::{GdbStop, Signal};
pub use gdb_packets::Going;
pub use laws::{
    looking_changes_nothing, looking_lines_leave_the_machine, registers_are_read,
    searches_are_one_search, slices_are_one_run, writes_are_whole,
};
pub use session::{GdbAnswer, GdbSession, GdbSettings};
