//! The program `rosm_tools`: tools that stand on a whole machine, of which the first word names
//! one.
//!
//! Promise: the first word chooses the tool, and another is refused.
//!
//! `rosm_tools debug WORD..` is what people type as `rosm_debug WORD..`; so it is with `rosm_gdb`.
//! Each tool is a module here.
#![tactic(auto)]

mod debug;
mod gdb;
mod subcommands;

use crate::debug::run as run_debug;
use crate::gdb::run as run_gdb;
use crate::subcommands::{Subcommand, refuse, subcommand_asked};
use debug_records::RunMeter;
use profile::Device;
use std::io::IsTerminal;
use std::process::ExitCode;

// What shows a person how far a long run is: standard error, where that is a terminal as well.
fn meter(rt: &HostRuntime, is_terminal: bool) -> RunMeter {
    let errors = rt.stderr();
    if is_terminal && errors.is_terminal() {
        RunMeter::at_terminal(errors)
    } else {
        RunMeter::silent()
    }
}

fn main(rt: HostRuntime) -> ExitCode {
    let mut errors = Device::new(rt.stderr());
    match subcommand_asked(&rt) {
        Some(Subcommand::Debug) => {
            let is_terminal = rt.stdin().is_terminal();
            run_debug(&rt, &mut errors, is_terminal, meter(&rt, is_terminal))
        }
        Some(Subcommand::Gdb) => run_gdb(&rt, &mut errors),
        None => refuse(&rt),
    }
}
