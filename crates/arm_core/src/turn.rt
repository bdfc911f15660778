//! How a step of the core ended.

ghost use Rattle.std.specs.Prelude.{◌≡◌};

use arm_decode::Fault;

/// How a step ended. On every answer but `Done` the core and the memory are as they were.
#[derive(Clone, Copy, PartialEq, Eq)]
pub enum StepEnd {
    /// One instruction was carried out.
    Done,
    /// The instruction is a software interrupt, with the number in its bits 23 to 0. The program
    /// counter still stands on it.
    Swi(u32),
    /// The program counter stands on the address that module code returns to.
    Gate,
    /// The instruction can't be fetched or carried out.
    Fault(Fault),
}

impl From<Fault> for StepEnd {
    ghost use Rattle.arm_core.specs.declared.turn.StepEnd.TheVariants.{Fault};

    ghost from_gives = { λ fault turn. turn ≡ Fault fault };

    #[inline(always)]
    fn from(fault: Fault) -> StepEnd {
        StepEnd::Fault(fault)
    }
}
