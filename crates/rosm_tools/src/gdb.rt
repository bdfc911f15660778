//! GDB's remote protocol over standard input and output: the subcommand `gdb` of the program
//! `rosm_tools`, which people type as `rosm_gdb`.
//!
//! Promise: it serves what `gdb_server` answers, to the end of the input.
//!
//! `rosm_gdb [--script FILE] [--stay] [--pages N] [--app N] [--rma N] [--budget N] [FILE...]`
#![tactic(auto)]

mod process;
mod renewed;
mod serve;

pub use process::run;
