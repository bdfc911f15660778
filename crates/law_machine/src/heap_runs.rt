//! Laws: over lists of moves on real machines, what a guest's heap answers is what it answers
//! alone.
#![tactic(auto)]

pub mod laws;
pub mod making;
pub mod moves;
pub mod own_calls;
pub mod pairs;

pub use making::make_events;
pub use moves::{End, MachineEvent, MachineMoves, Made, Reply};
pub use pairs::make_in_two;
