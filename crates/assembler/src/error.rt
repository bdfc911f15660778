//! The line of a source that is refused, and why.

ghost use Rattle.std.specs.Prelude.{◌≡◌, Some};

use assembler_reading::Reason;
use std::error::Error;
use std::fmt;

/// The line of a source that is refused, and why: the first line of the first pass that finds one,
/// and in it the first reason of [`Reason`]'s list.
#[derive(Clone, Copy, Debug)]
pub struct AsmError {
    /// The line's number, from 1; 0 for want of memory.
    pub line: usize,
    /// Why it is refused.
    pub reason: Reason,
}

impl AsmError {
    ghost use Rattle.assembler.specs.ErrorNames.{reason_name};

    /// The reason's name, as the script language prints it.
    pub fn reason_name(self) -> &'static str
        ensures { result.now ≡ reason_name self.reason }
    {
        match self.reason {
            Reason::Syntax => "Syntax",
            Reason::LabelTwice => "LabelTwice",
            Reason::TooLong => "TooLong",
            Reason::UnknownLabel => "UnknownLabel",
            Reason::BadImmediate => "BadImmediate",
            Reason::OutOfReach => "OutOfReach",
            Reason::Forbidden => "Forbidden",
            Reason::Memory => "Memory",
        }
    }
}

/// The line and the reason's name.
impl fmt::Display for AsmError {
    ghost use Rattle.assembler.specs.ErrorTexts.{asm_error_text};

    ghost output = { λ error. Some (asm_error_text error) };

    fn fmt<W: fmt::Write>(&self, f: &mut fmt::Formatter<W>) -> fmt::Result {
        let (line, name) = (self.line, self.reason_name());
        write!(f, "line {line}: {name}")
    }
}

impl Error for AsmError {}
