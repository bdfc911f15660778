//! The lines of a debugging script that take steps: RUN, STEP, CALL, LOAD, FINISH and GOSUB, traced
//! or not, with stubs for SWIs that the machine doesn't have and watches on words of memory.
//!
//! Promise: a traced run is the run without a trace, and without modes it is that of a script.
#![tactic(auto)]

mod basic_blocks;
mod context;
mod endings;
mod labelling;
mod last;
mod last_steps;
pub mod laws;
mod lines;
mod running;
mod silent;
mod stub_lines;
mod writer;

pub use debug_labels::{ImagePlace, LabelTable, PlaceNames};
pub use debug_lines::SteppingCommand;
pub use debug_tables::counts::StepCounts;
pub use debug_tables::{Session, StepModes};
pub use lines::{LineAnswer, answer_stepping};
