//! Laws: which steps of a machine are flex calls or slides in the sense of `law_machine::sliding_stores`.
#![tactic(auto)]

pub mod laws;
