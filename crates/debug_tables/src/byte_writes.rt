//! Bytes written to the machine of a session from outside, at any address, whole or not at all; and
//! bytes looked for in it.
#![tactic(auto)]

mod find;
mod put;

pub use find::find_text;
pub(crate) use put::fits;
pub use put::put_bytes;
