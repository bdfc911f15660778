//! Tests of what no script reaches: devices that fail, calls that no script makes, and texts that no
//! program prints. They stand apart from the crates that they test, since a crate with tests is
//! proved once more with them.

mod arm;
mod base;
mod machine;
mod shell;
