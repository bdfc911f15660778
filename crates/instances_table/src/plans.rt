//! Plans of module calls: what is still to be done of one, since module code runs in between.
#![tactic(auto)]

pub mod action;
pub mod calls;
pub mod code;
pub mod copies;
pub mod given;
pub mod laws;
pub mod plan;

pub use action::PlanAction;
pub use code::{Advance, Code, CodeKind, Ended, Outcome, private_word};
pub use given::Given;
pub use plan::Plan;
pub use profile::images::module_header::{Header, HeaderFault};
