//! Laws: what an assembled program is, stated without passes, by the pieces of its lines.
#![tactic(auto)]

pub mod laws;
