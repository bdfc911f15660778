//! The SWI that the next step calls.

ghost use Rattle.std.specs.Prelude.{◌≡◌};
ghost use Rattle.address_map.specs.Memory.{bytes_of};
ghost use Rattle.debug_tables.specs.Stubs.{is_known_swi, swi_next, swi_in_word};
ghost use Rattle.command_shell.specs.GuestState.{state_of};

use address_map::AddressMap;
use arm_decode::{Action, Condition, Form, decode, row_of};
use command_shell::{Cpu, Machine, Psr, is_met};
use profile::SwiName;
use profile::memory_map::RETURN_GATE;

/// The number of the SWI that the core calls next, if it calls one.
pub(crate) fn swi_next(cpu: &Cpu, memory: &AddressMap) -> Option<u32>
    ensures { result ≡ swi_next cpu.now (bytes_of memory.now) }
{
    if cpu.pc() == RETURN_GATE {
        return None;
    }
    match memory.load_word(cpu.pc()) {
        Ok(word) => swi_in_word(cpu.psr(), word),
        Err(_) => None,
    }
}

fn swi_in_word(psr: Psr, word: u32) -> Option<u32>
    ensures { result ≡ swi_in_word psr word }
{
    // Whether a word is a SWI its form says: few words are decoded.
    match row_of(word) {
        Ok(Form::SoftwareInterrupt) => swi_if_met(psr, word),
        _ => None,
    }
}

fn swi_if_met(psr: Psr, word: u32) -> Option<u32>
    ensures { result ≡ swi_in_word psr word }
{
    if !is_met(Condition::in_word(word), psr) {
        return None;
    }
    match decode(word) {
        Ok(instr) => match instr.action() {
            Action::SoftwareInterrupt(number) => Some(number.number()),
            _ => None,
        },
        Err(_) => None,
    }
}

/// Whether the machine has a call of a number without its X bit: of its own, or a module's.
pub(crate) fn is_known_swi(machine: &Machine, number: u32) -> bool
    ensures { result ≡ is_known_swi (state_of machine.now.guest) number }
{
    SwiName::of(number).is_some() || machine.instances().handler_of(number).is_some()
}
