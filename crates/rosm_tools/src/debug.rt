//! Debugging scripts: the subcommand `debug` of the program `rosm_tools`, which people type as
//! `rosm_debug`. Lines are answered by `debug_program`, and recorded by `debug_records`.
//!
//! `rosm_debug [--script FILE [-i]] [--tap | --transcript | --json] [--pages N] [--app N] [--rma N]
//! [--budget N] [FILE...] <SCRIPT`

mod answering;
mod options;
mod process;
mod refusal;
mod saves;
mod scripts;
mod words;

pub use process::run;
