//! The module code that an action runs, and how it ends.

ghost use Rattle.std.specs.Prelude.{◌≡◌, ◌<◌};
ghost use Rattle.instances_table.specs.plans.Code.{private_of};

use profile::images::module_header::{ErrorNumber, PRIVATE_WORDS};

/// Which of its entries a module is entered at.
#[derive(Clone, Copy)]
pub enum CodeKind {
    Initialise,
    Finalise,
}

/// Module code that is to be entered: the instance's slot, the address, and R10 to R12 on entry
/// (RISC OS 3 Programmer's Reference Manual, "Modules", "Initialisation entry point" and
/// "Finalisation entry point").
#[derive(Clone, Copy)]
pub struct Code {
    pub kind: CodeKind,
    pub slot: u32,
    pub at: u32,
    pub r10: u32,
    pub r11: u32,
    pub r12: u32,
}

/// What module code left: `Well`, or its own error with the R0 that it left. Where no code ran it
/// is `Well`.
#[derive(Clone, Copy)]
pub enum Outcome {
    Well,
    Refused(u32),
}

/// How a call ends: without an error, with one of the system, or with a module's own, whose R0
/// stands in R0 then.
#[derive(Clone, Copy)]
pub enum Ended {
    Well,
    System(ErrorNumber),
    Own(u32),
}

/// What one turn of a plan asks for: the next turn, the entry of module code, or the end of the
/// call.
#[derive(Clone, Copy)]
pub enum Advance {
    Next,
    Code(Code),
    End(Ended),
}

/// The address of the private word of an instance, by its slot.
pub fn private_word(slot: u32) -> u32
    requires { slot < 64 }
    ensures { result ≡ private_of slot }
{
    PRIVATE_WORDS + 4 * slot
}
