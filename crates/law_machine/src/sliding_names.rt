//! Laws: what lists of flex calls and slides of the module area do to flex blocks, by their names.
#![tactic(auto)]

pub mod laws;
