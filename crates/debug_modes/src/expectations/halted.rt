//! That a fault has halted a machine, and where.

ghost use Rattle.std.specs.Prelude.{◌≡◌};
ghost use Rattle.profile.specs.Output.{Writes};
ghost use Rattle.debug_modes.specs.expectations.Halted.{halted_by_text, halted_at_text, halting_fault};

use profile::{Fault, HexText, Sink, Stop, WriteFault, push_parts};

/// The fault of a stop, if it is one by a fault.
pub fn halting_fault(stop: Option<Stop>) -> Option<Fault>
    ensures { result ≡ halting_fault stop }
{
    match stop? {
        Stop::Fault(fault) => Some(fault),
        Stop::Exit | Stop::Budget | Stop::Break(_) => None,
    }
}

/// Writes `halted at &8004 by DataUnmapped; RESET or BACK wakes it`.
pub fn push_halted<W: Sink>(sink: &mut W, fault: Fault, address: u32) -> Result<(), WriteFault>
    ensures { Writes W.contents W.has_failed sink.old sink.new result (halted_at_text fault address) }
{
    push_halted_by(sink, address, fault.name().as_bytes())
}

// The same by a fault's name.
fn push_halted_by<W: Sink>(sink: &mut W, address: u32, name: &[u8]) -> Result<(), WriteFault>
    ensures { Writes W.contents W.has_failed sink.old sink.new result (halted_by_text address name.now) }
{
    push_parts(
        sink,
        &[
            b"halted at &".as_slice(),
            HexText::number(address).as_slice(),
            b" by ".as_slice(),
            name,
            b"; RESET or BACK wakes it\n".as_slice(),
        ],
    )
}
