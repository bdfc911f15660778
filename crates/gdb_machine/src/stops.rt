//! Why the program stands, and how GDB is told.

ghost use Rattle.std.specs.Prelude.{◌≡◌, ◌∷◌, [], ◌++◌, IfOk, OnOk};
ghost use Rattle.hex.specs.Hex.{encode_lower};
ghost use Rattle.gdb_machine.specs.Stops.{gone_text, first_registers_text, is_gone, reached_text, signal_number, signal_number_of as number_shown, signal_of, signal_of_fault as fault_shown, stop_packet as packet_shown, shown_value, watch_reached, watch_word};

use crate::registers::{register_shown, word_digits};
use crate::watches::{WatchKind, WatchedPlace};
use arm_core::Cpu;
use hex::encode;
use profile::{Fault, Stop};
use std::alloc::{AllocError, Global};

/// A signal, by GDB's own numbers.
#[derive(Clone, Copy)]
pub enum Signal {
    /// SIGINT, 2: asked to stop.
    Interrupt,
    /// SIGILL, 4: no such instruction.
    Illegal,
    /// SIGTRAP, 5: a step, a break or a watch.
    Trap,
    /// SIGABRT, 6: given up.
    Abort,
    /// SIGBUS, 10: memory that may not be used so.
    Bus,
    /// SIGSEGV, 11: memory that isn't there.
    Segment,
    /// SIGSYS, 12: a bad system call.
    System,
    /// SIGXCPU, 24: too many steps.
    Steps,
}

impl Signal {
    fn number(self) -> u8
        ensures { result ≡ signal_number self }
    {
        match self {
            Signal::Interrupt => 2,
            Signal::Illegal => 4,
            Signal::Trap => 5,
            Signal::Abort => 6,
            Signal::Bus => 10,
            Signal::Segment => 11,
            Signal::System => 12,
            Signal::Steps => 24,
        }
    }
}

/// Why the program stands.
#[derive(Clone, Copy)]
pub enum GdbStop {
    /// It has not run yet, or a step was taken.
    Stepped,
    /// A run of it ended.
    Ran(Stop),
    /// The user asked for it.
    Asked,
    /// A watch was struck.
    Watched(WatchedPlace),
    /// Other modules are there than GDB was told of.
    Library,
    /// It was ended by the signal of its fault.
    Killed(Fault),
    /// It went back over a step that had changed a byte of a watch.
    WatchedBack(WatchedPlace),
    /// It went back as far as the past of the machine is known.
    Begin,
    /// It is about to exit, and stays so that one can go back.
    End,
}

impl GdbStop {
    /// Whether the program is no more.
    pub fn is_gone(self) -> bool
        ensures { result ≡ is_gone self }
    {
        matches!(self, GdbStop::Killed(_) | GdbStop::Ran(Stop::Exit))
    }

    // The signal; `None` where the program is no more.
    fn signal(self) -> Option<Signal>
        ensures { result ≡ signal_of self }
    {
        match self {
            GdbStop::Stepped | GdbStop::Watched(_) | GdbStop::Library => Some(Signal::Trap),
            GdbStop::WatchedBack(_) | GdbStop::Begin | GdbStop::End => Some(Signal::Trap),
            GdbStop::Asked => Some(Signal::Interrupt),
            GdbStop::Ran(Stop::Break(_)) => Some(Signal::Trap),
            GdbStop::Ran(Stop::Budget) => Some(Signal::Steps),
            GdbStop::Ran(Stop::Fault(fault)) => Some(signal_of_fault(fault)),
            GdbStop::Ran(Stop::Exit) | GdbStop::Killed(_) => None,
        }
    }
}

fn signal_of_fault(fault: Fault) -> Signal
    ensures { result ≡ fault_shown fault }
{
    match fault {
        Fault::FetchUnmapped | Fault::DataUnmapped => Signal::Segment,
        Fault::AddressException | Fault::OwnedWord => Signal::Bus,
        Fault::StackChanged => Signal::Abort,
        Fault::ErrorStop(_) => Signal::System,
        Fault::UndefinedInstruction
        | Fault::Unallocated
        | Fault::PcOperand
        | Fault::MultiplySame
        | Fault::EmptyList
        | Fault::UserBankWriteback => Signal::Illegal,
    }
}

/// The number of the signal of a fault.
pub fn signal_number_of(fault: Fault) -> u8
    ensures { result ≡ number_shown fault }
{
    signal_of_fault(fault).number()
}

/// The packet that shows why the program stands.
#[tactic(auto, unfolding(crate::specs::Stops::stop_packet))]
pub fn stop_packet(alloc: Global, cpu: &Cpu, why: GdbStop) -> Result<Vec<u8>, AllocError>
    ensures { IfOk result (λ packet. packet.items ≡ packet_shown cpu.now why) }
{
    let Some(signal) = why.signal() else {
        return gone_text(alloc, why);
    };
    let mut packet = Vec::from_slice(alloc, b"T")?;
    packet.extend_from_slice(encode(alloc, [signal.number()])?.as_bytes())?;
    packet.extend_from_slice(reached(alloc, why)?.as_slice())?;
    push_first_registers(alloc, cpu, &mut packet)?;
    Ok(packet)
}

// The program has exited, or was ended by the signal of its fault.
fn gone_text(alloc: Global, why: GdbStop) -> Result<Vec<u8>, AllocError>
    ensures { IfOk result (λ text. text.items ≡ gone_text why) }
{
    let GdbStop::Killed(fault) = why else {
        return Vec::from_slice(alloc, b"W00");
    };
    let mut text = Vec::from_slice(alloc, b"X")?;
    text.extend_from_slice(encode(alloc, [signal_number_of(fault)])?.as_bytes())?;
    Ok(text)
}

// What reached the program: a break, a watch that was struck, the beginning of what is known of its past, or
// its end; or that other modules are there.
fn reached(alloc: Global, why: GdbStop) -> Result<Vec<u8>, AllocError>
    ensures { IfOk result (λ text. text.items ≡ reached_text why) }
{
    match why {
        GdbStop::Ran(Stop::Break(_)) => Vec::from_slice(alloc, b"swbreak:;"),
        GdbStop::Library => Vec::from_slice(alloc, b"library:;"),
        GdbStop::Begin => Vec::from_slice(alloc, b"replaylog:begin;"),
        GdbStop::End => Vec::from_slice(alloc, b"replaylog:end;"),
        GdbStop::Watched(place) | GdbStop::WatchedBack(place) => watch_reached(alloc, place),
        _ => Ok(Vec::new(alloc)),
    }
}

// `watch:`, or what stands for its kind, and the address.
fn watch_reached(alloc: Global, place: WatchedPlace) -> Result<Vec<u8>, AllocError>
    ensures { IfOk result (λ text. text.items ≡ watch_reached place) }
{
    let mut text = Vec::from_slice(alloc, watch_word(place.kind))?;
    text.extend_from_slice(encode(alloc, place.address.to_be_bytes())?.as_bytes())?;
    text.extend_from_slice(b";")?;
    Ok(text)
}

fn watch_word(kind: WatchKind) -> &'static [u8]
    ensures { result.now ≡ watch_word kind }
{
    match kind {
        WatchKind::Store => b"watch:",
        WatchKind::Load => b"rwatch:",
        WatchKind::Access => b"awatch:",
    }
}

// The registers that GDB asks for first.
fn push_first_registers(alloc: Global, cpu: &Cpu, text: &mut Vec<u8>) -> Result<(), AllocError>
    ensures { OnOk result (text.new.items ≡ text.old.items ++ first_registers_text cpu.now) }
{
    push_value(alloc, cpu, text, b"0b:", 11)?;
    push_value(alloc, cpu, text, b";0d:", 13)?;
    push_value(alloc, cpu, text, b";0e:", 14)?;
    push_value(alloc, cpu, text, b";0f:", 15)?;
    push_value(alloc, cpu, text, b";10:", 16)?;
    text.extend_from_slice(b";")
}

// A register behind its name.
fn push_value(
    alloc: Global,
    cpu: &Cpu,
    text: &mut Vec<u8>,
    name: &[u8],
    number: u32,
) -> Result<(), AllocError>
    ensures { OnOk result (text.new.items ≡ text.old.items ++ name.now ++ shown_value cpu.now number) }
{
    let digits = word_digits(alloc, register_shown(cpu, number).unwrap_or(0))?;
    text.extend_from_slice(name)?;
    text.extend_from_slice(digits.as_slice())
}
