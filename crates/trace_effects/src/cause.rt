//! What stands where a core goes on.

ghost use Rattle.std.specs.Prelude.{◌≡◌};
ghost use Rattle.arm_step.specs.Memory.{bytes_of};
ghost use Rattle.trace_effects.specs.Cause.{cause_of, swi_of_action, swi_of_cause};

use arm_core::Cpu;
use arm_core::condition::is_met;
use arm_decode::{Action, Condition, decode};
use arm_step::AddressMap;
use profile::memory_map::RETURN_GATE;

/// What stands where a core goes on.
#[derive(Clone, Copy)]
pub enum Cause {
    /// The return gate, where module code goes back.
    Gate,
    /// No memory is mapped there.
    Unmapped,
    /// A word whose condition isn't met.
    Skipped(u32),
    /// A word whose condition is met.
    Word(u32),
}

impl Cause {
    /// What stands at the program counter.
    pub fn of(cpu: &Cpu, memory: &AddressMap) -> Cause
        ensures value { result ≡ cause_of cpu.now (bytes_of memory.now) }
    {
        let pc = cpu.pc();
        if pc == RETURN_GATE {
            return Cause::Gate;
        }
        match memory.load_word(pc) {
            Ok(word) if is_met(Condition::in_word(word), cpu.psr()) => Cause::Word(word),
            Ok(word) => Cause::Skipped(word),
            Err(_) => Cause::Unmapped,
        }
    }
}

/// The number of the software interrupt that is taken, if it is one.
pub fn called_swi(cause: Cause) -> Option<u32>
    ensures value { result ≡ swi_of_cause cause }
{
    match cause {
        Cause::Word(word) => match decode(word) {
            Ok(instr) => swi_of_action(instr.action()),
            Err(_) => None,
        },
        _ => None,
    }
}

pub(crate) fn swi_of_action(action: Action) -> Option<u32>
    ensures { result ≡ swi_of_action action }
{
    match action {
        Action::SoftwareInterrupt(number) => Some(number.number()),
        _ => None,
    }
}
