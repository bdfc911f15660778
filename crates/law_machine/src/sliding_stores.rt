//! Laws: what lists of flex calls and slides of the module area do, stated without addresses.
#![tactic(auto)]

pub mod laws;
