//! How a step ended, and what of that is shown.

ghost use Rattle.std.specs.Prelude.{◌≡◌, ◌&&◌, nat_lt};
ghost use Rattle.address_map.specs.Memory.{bytes_of};
ghost use Rattle.profile.specs.Output.{Writes};
ghost use Rattle.gdb_machine.specs.StepEnds.{halted_line, halted_text, is_exit_number, is_exit_ahead, is_interrupt as is_interrupt_shown, is_own_signal, last_stop as last_shown, may_change_list, steps_further as goes_on_shown, stop_after_step, struck_after, was_library as was_library_shown};

use crate::stops::{GdbStop, signal_number_of};
use crate::watches::WatchedPlace;
use address_map::AddressMap;
use arm_core::Cpu;
use gdb_packets::Going;
use profile::memory_map::RETURN_GATE;
use profile::{Fault, HexText, Sink, Stop, WriteFault, push_parts};
use trace_effects::{Cause, called_swi};

/// What is known before a step: whether it may change which modules are there, and where its instruction
/// strikes a watch by what it loads or stores to.
#[derive(Clone, Copy)]
pub struct StepAhead {
    /// Whether it may.
    pub may_change: bool,
    /// Where it strikes.
    pub struck: Option<WatchedPlace>,
}

/// Whether there may be another step.
pub fn goes_on(stop: GdbStop) -> bool
    ensures { result ≡ goes_on_shown stop }
{
    matches!(stop, GdbStop::Ran(Stop::Budget))
}

/// Whether there may be another step where so many are left of the budget.
pub fn may_go_on(stop: GdbStop, left: u64) -> bool
    ensures { result ≡ (goes_on_shown stop && nat_lt 0 left) }
{
    goes_on(stop) && left > 0
}

/// Why the program stands after a step.
pub fn stepped(stop: GdbStop) -> GdbStop
    ensures { result ≡ stop_after_step stop }
{
    if goes_on(stop) {
        GdbStop::Stepped
    } else {
        stop
    }
}

/// Why the machine itself stood after its last step.
pub fn last_stop(last: Option<Stop>) -> GdbStop
    ensures { result ≡ last_shown last }
{
    match last {
        Some(stop) => stepped(GdbStop::Ran(stop)),
        None => GdbStop::Stepped,
    }
}

/// What a step that ended so struck: one that met a fault has loaded and stored nothing.
pub fn struck_after(stop: GdbStop, struck: Option<WatchedPlace>) -> Option<WatchedPlace>
    ensures { result ≡ struck_after stop struck }
{
    match stop {
        GdbStop::Ran(Stop::Fault(_)) => None,
        _ => struck,
    }
}

/// Whether GDB was told of other modules.
pub fn was_library(stop: GdbStop) -> bool
    ensures { result ≡ was_library_shown stop }
{
    matches!(stop, GdbStop::Library)
}

/// Whether the next step may change which modules are there, where GDB wants to know of it at once.
pub fn may_change_list(going: Going, cpu: &Cpu, map: &AddressMap) -> bool
    ensures { result ≡ may_change_list going cpu.now (bytes_of map.now) }
{
    match going {
        Going::On => cpu.pc() == RETURN_GATE || is_interrupt(map.load_word(cpu.pc())),
        Going::Once | Going::Within(_) => false,
    }
}

// Whether a word that may have been loaded is a software interrupt.
fn is_interrupt(word: Result<u32, Fault>) -> bool
    ensures { result ≡ is_interrupt_shown word }
{
    match word {
        Ok(word) => word / 0x0100_0000 % 16 == 15,
        Err(_) => false,
    }
}

/// Whether the instruction at the program counter calls OS_Exit.
pub fn is_exit_ahead(cpu: &Cpu, map: &AddressMap) -> bool
    ensures { result ≡ is_exit_ahead cpu.now (bytes_of map.now) }
{
    is_exit_number(called_swi(Cause::of(cpu, map)))
}

fn is_exit_number(number: Option<u32>) -> bool
    ensures { result ≡ is_exit_number number }
{
    matches!(number, Some(0x11 | 0x2_0011))
}

/// Whether a signal is that of a fault.
pub fn is_own_signal(signal: Option<u32>, fault: Fault) -> bool
    ensures { result ≡ is_own_signal signal fault }
{
    match signal {
        Some(signal) => signal == u32::from(signal_number_of(fault)),
        None => false,
    }
}

/// `rosm: halted at &8004 by DataUnmapped; BACK, RESET, load or another pc wakes it`
pub fn push_halted<W: Sink>(sink: &mut W, fault: Fault, address: u32) -> Result<(), WriteFault>
    ensures { Writes W.contents W.has_failed sink.old sink.new result (halted_text fault address) }
{
    push_halted_by(
        sink,
        HexText::number(address).as_slice(),
        fault.name().as_bytes(),
    )
}

// The same by the digits of the address and the fault's name.
fn push_halted_by<W: Sink>(sink: &mut W, digits: &[u8], name: &[u8]) -> Result<(), WriteFault>
    ensures { Writes W.contents W.has_failed sink.old sink.new result
        (halted_line digits.now name.now) }
{
    push_parts(
        sink,
        &[
            b"rosm: halted at &".as_slice(),
            digits,
            b" by ".as_slice(),
            name,
            b"; BACK, RESET, load or another pc wakes it\n".as_slice(),
        ],
    )
}
