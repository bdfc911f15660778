//! What GDB sees of a machine: the registers as it numbers them, memory as far as it is mapped, why
//! the program stands, bytes that are watched, and what GDB loaded. It knows no step.
//!
//! Promise: registers and mapped bytes are those of the machine, in GDB's order.
#![tactic(auto)]

mod back_ends;
mod change_packets;
mod changes;
mod description;
mod escape;
mod gdb_breaks;
mod laws;
mod libraries;
mod loads;
mod memory;
mod registers;
mod step_ends;
mod stops;
mod watches;

pub use back_ends::{ActRange, BackEnd, BackGoal, BackSearch, UnderWay, all_goals, piece_before};
pub use change_packets::{break_refusal, decoded, store_refusal, wanted_write, watch_refusal};
pub use changes::{RegisterWrite, register_write};
pub use description::description_part;
pub use gdb_breaks::GdbBreaks;
pub use laws::{first_is_met_first, register_writes_are_read};
pub use libraries::{libraries_part, library_lines};
pub use loads::Loads;
pub use memory::{known_bytes, memory_shown};
pub use registers::{all_registers, one_register, register_shown};
pub use step_ends::{
    StepAhead, goes_on, is_exit_ahead, is_own_signal, last_stop, may_change_list, may_go_on,
    push_halted, stepped, struck_after, was_library,
};
pub use stops::{GdbStop, Signal, signal_number_of, stop_packet};
pub use watches::{SeenByte, Watch, WatchError, WatchKind, WatchedPlace, Watches, first_changed};
