//! The program `rosm`: a script from standard input to its answers on standard output.
//!
//! `rosm [--pages N] [--app N] [--rma N] [--budget N] [FILE...] <SCRIPT`
#![tactic(auto)]

use profile::Device;
use rosm_settings::{exit_code, read_settings, run_on_standard_streams};
use std::process::ExitCode;

fn main(rt: HostRuntime) -> ExitCode {
    let mut errors = Device::new(rt.stderr());
    match read_settings(&rt) {
        Ok(settings) => {
            let ending = run_on_standard_streams(&rt, &settings, &mut errors);
            exit_code(rt.alloc(), &mut errors, ending)
        }
        Err(refusal) => exit_code(rt.alloc(), &mut errors, Err(refusal)),
    }
}
