//! The store calls on modules, for the machine: the reasons of OS_Module that run no module code.
//!
//! `call_module` takes the core, the memory, the areas and the modules: what a caller's registers
//! ask for, and where the answer goes. Reasons that act on the relocatable module area stand in
//! `area`, those that look up instances, name them and prefer them in `naming`. Between calls
//! holds what `rma` and `instances` ask (`IsAreaMap`); each call keeps it, and whatever call on
//! modules is under way can go on after it (`LeavesModuleState`).
#![tactic(auto)]

pub mod area;
pub mod calls;
pub mod naming;

pub use calls::call_module;
