//! Law of records: whoever has the machine at the start has it behind each record.
#![tactic(auto)]

pub mod laws;
