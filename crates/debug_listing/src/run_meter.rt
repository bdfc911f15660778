//! Lines of a script whose steps may take long: a person at a terminal is shown how far they are.
#![tactic(auto)]

mod meter;
mod metered;

pub use meter::RunMeter;
pub use metered::answer_metered;
