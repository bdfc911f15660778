//! Views for a debugger that show places by their labels: where the machine stands, the stack, and
//! the open frames of module code.
#![tactic(auto)]

mod frames;
mod names;
mod stack;
mod standing;

pub use frames::show_frames;
pub use names::{line_on, names_on};
pub use stack::show_stack;
pub use standing::show_where;
