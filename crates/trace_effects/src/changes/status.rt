//! The flags, the mode and the program counter, as two cores differ in them.

ghost use Rattle.std.specs.Prelude.{◌≡◌};
ghost use Rattle.trace_effects.specs.changes.Status.{flag_of, flag_change, mode_change, jump, following_word};

use arm_core::{Cpu, Mode, Psr};
use profile::memory_map::ADDRESS_LIMIT;

/// What the status has beside the mode, as bits 31 to 26 of R15.
#[derive(Clone, Copy)]
pub enum Flag {
    Negative,
    Zero,
    Carry,
    Overflow,
    InterruptsOff,
    FastInterruptsOff,
}

impl Flag {
    /// Whether a status has it set.
    #[inline(always)]
    pub fn is_set(self, psr: Psr) -> bool
        ensures value { result ≡ flag_of self psr }
    {
        match self {
            Flag::Negative => psr.negative,
            Flag::Zero => psr.zero,
            Flag::Carry => psr.carry,
            Flag::Overflow => psr.overflow,
            Flag::InterruptsOff => psr.interrupts_off,
            Flag::FastInterruptsOff => psr.fast_interrupts_off,
        }
    }
}

/// The new value of a flag, where it differs.
#[inline(always)]
pub fn changed_flag(flag: Flag, before: Psr, after: Psr) -> Option<bool>
    ensures value { result ≡ flag_change flag before after }
{
    let new = flag.is_set(after);
    if flag.is_set(before) == new {
        None
    } else {
        Some(new)
    }
}

/// The new mode, where it differs.
pub fn changed_mode(before: Psr, after: Psr) -> Option<Mode>
    ensures value { result ≡ mode_change before after }
{
    match (before.mode, after.mode) {
        (Mode::User, Mode::User) => None,
        (Mode::FastInterrupt, Mode::FastInterrupt) => None,
        (Mode::Interrupt, Mode::Interrupt) => None,
        (Mode::Supervisor, Mode::Supervisor) => None,
        (_, new) => Some(new),
    }
}

/// The address of the word after the one at the program counter.
pub fn following_word(cpu: &Cpu) -> u32
    ensures value { result ≡ following_word cpu.now }
{
    (cpu.pc() + 4) % ADDRESS_LIMIT
}

/// Where a core goes on, if that isn't where it was expected to.
pub fn jump_of(expected: u32, after: &Cpu) -> Option<u32>
    ensures value { result ≡ jump expected after.now }
{
    let at = after.pc();
    if at == expected { None } else { Some(at) }
}
