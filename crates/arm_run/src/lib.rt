//! Steps of the core one after another, by predecoded words.
//!
//! Promise: a run is so many steps of `arm_step`, none of the positions between them a break, and
//! what comes next.
#![tactic(auto)]

mod act;
mod blocks;
mod branching;
pub mod decoded;
mod multiplying;
mod operating;
mod running;
mod standing;
mod transferring;

pub use arm_core::breaks::{BreakError, Breaks};
pub use arm_core::condition::is_met;
pub use arm_core::{Cpu, Mode, Psr, StepEnd};
pub use arm_predecode::DecodeCache;
pub use running::run;
