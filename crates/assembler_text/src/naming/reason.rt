//! The reasons for which a source is refused.

use thiserror::Error;

/// Why a source has no program. The text of a reason is its name.
#[derive(Clone, Copy, Debug, Error)]
pub enum Reason {
    /// The line isn't one of the grammar's.
    #[error("Syntax")]
    Syntax,
    /// The label stands before another line already.
    #[error("LabelTwice")]
    LabelTwice,
    /// The program is longer than 1,048,576 bytes, or passes address 2^26.
    #[error("TooLong")]
    TooLong,
    /// No line has the label.
    #[error("UnknownLabel")]
    UnknownLabel,
    /// The instruction has no form for the number.
    #[error("BadImmediate")]
    BadImmediate,
    /// LDR or STR of an address more than 4095 bytes away, or a branch to one that is no multiple
    /// of 4 below 2^26.
    #[error("OutOfReach")]
    OutOfReach,
    /// The instruction would be refused when it runs.
    #[error("Forbidden")]
    Forbidden,
    /// There is no memory left.
    #[error("Memory")]
    Memory,
}
