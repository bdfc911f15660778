//! Modules and their instances, together with the memory that they stand in, for the calls of
//! OS_Module.
//!
//! Promise: each action of a plan leaves the modules and the memory that its definition says, and a
//! plan finds all that it asks for.
#![tactic(auto)]

pub mod actions;
pub mod adding;
pub mod advance;
pub mod answers;
pub mod copying;
mod given;
pub mod in_place;
pub mod instances;
pub mod instantiating;
pub mod module_state;
pub mod plans;
pub mod reading;
pub mod tidying;

pub use answers::{Found, Reported, Start};
pub use instances::Instances;
pub use instances_table::plans::{Advance, Code, CodeKind, Ended, Outcome, Plan};
pub use instances_table::{Handler, InstanceInfo, InstanceTable, ModuleInfo, Place};
pub use rma::{Area, Areas, Changed, Rma, Wanted, areas_count_pages, start_memory};
