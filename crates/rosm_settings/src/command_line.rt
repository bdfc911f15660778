//! The command line, for the programs: what its words ask for, or why they are refused.
#![tactic(auto)]

pub mod files;
pub mod options;
pub mod reading;
pub mod reasons;

pub use files::Files;
pub use options::{Settings, SettingsError, USAGE};
pub use reading::settings;
pub use reasons::{line_reason, sizes_reason};
