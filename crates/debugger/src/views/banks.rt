//! The view BANKS: the registers that each mode has of its own.

ghost use Rattle.std.specs.Prelude.{◌≡◌, ◌<◌};
ghost use Rattle.swi_dispatch_guest.specs.Output.{Writes};
ghost use Rattle.debugger.specs.views.Banks.{bank_line_from_8, bank_line_from_13, banked_name, banked_register_text, banks_text, mode_suffix, registers_from_8_text};
ghost use Rattle.swi_dispatch_guest.specs.GuestState.{state_of};

use crate::mode_name;
use assembler_text::HexText;
use itoa::Buffer;
use swi_dispatch_guest::{Cpu, Machine, Mode, Sink, WriteFault, push_all, push_parts};

/// Writes the registers that each mode has of its own, whatever the present one: R8 to R14 of USR,
/// which other modes hide, and of FIQ, and R13 and R14 of IRQ and SVC. R8 to R12 stand on a line,
/// R13 and R14 on the next, as `SVC R13_svc 01C01FFC R14_svc 03800003`.
pub fn show_banks<W: Sink>(machine: &Machine, sink: &mut W) -> Result<(), WriteFault>
    ensures writes { Writes W.contents W.has_failed sink.old sink.new result
        (banks_text (state_of machine.now.guest).cpu) }
{
    show_core(machine.cpu(), sink)
}

fn show_core<W: Sink>(cpu: &Cpu, sink: &mut W) -> Result<(), WriteFault>
    ensures { Writes W.contents W.has_failed sink.old sink.new result (banks_text cpu.now) }
{
    show_from_8(cpu, Mode::User, sink)?;
    show_from_13(cpu, Mode::User, sink)?;
    show_from_8(cpu, Mode::FastInterrupt, sink)?;
    show_from_13(cpu, Mode::FastInterrupt, sink)?;
    show_from_13(cpu, Mode::Interrupt, sink)?;
    show_from_13(cpu, Mode::Supervisor, sink)
}

// The line of R8 to R12 of a mode.
fn show_from_8<W: Sink>(cpu: &Cpu, mode: Mode, sink: &mut W) -> Result<(), WriteFault>
    ensures { Writes W.contents W.has_failed sink.old sink.new result (bank_line_from_8 cpu.now mode) }
{
    push_all(sink, mode_name(mode).as_slice())?;
    show_registers_from_8(cpu, mode, sink)?;
    push_all(sink, b"\n")
}

fn show_registers_from_8<W: Sink>(cpu: &Cpu, mode: Mode, sink: &mut W) -> Result<(), WriteFault>
    ensures { Writes W.contents W.has_failed sink.old sink.new result (registers_from_8_text cpu.now mode) }
{
    show_register(cpu, mode, 8, sink)?;
    show_register(cpu, mode, 9, sink)?;
    show_register(cpu, mode, 10, sink)?;
    show_register(cpu, mode, 11, sink)?;
    show_register(cpu, mode, 12, sink)
}

// The line of R13 and R14 of a mode.
fn show_from_13<W: Sink>(cpu: &Cpu, mode: Mode, sink: &mut W) -> Result<(), WriteFault>
    ensures { Writes W.contents W.has_failed sink.old sink.new result (bank_line_from_13 cpu.now mode) }
{
    push_all(sink, mode_name(mode).as_slice())?;
    show_register(cpu, mode, 13, sink)?;
    show_register(cpu, mode, 14, sink)?;
    push_all(sink, b"\n")
}

fn show_register<W: Sink>(
    cpu: &Cpu,
    mode: Mode,
    number: u32,
    sink: &mut W,
) -> Result<(), WriteFault>
    requires { number < 15 }
    ensures { Writes W.contents W.has_failed sink.old sink.new result
        (banked_register_text cpu.now mode number) }
{
    push_all(sink, b" ")?;
    push_banked_name(sink, mode, number)?;
    push_parts(
        sink,
        &[
            b" ".as_slice(),
            HexText::word(cpu.register_in(mode, number)).as_slice(),
        ],
    )
}

/// Writes the name of a mode's register, as `R13_svc`.
pub fn push_banked_name<W: Sink>(sink: &mut W, mode: Mode, number: u32) -> Result<(), WriteFault>
    ensures writes { Writes W.contents W.has_failed sink.old sink.new result (banked_name mode number) }
{
    let mut digits = Buffer::new();
    push_parts(
        sink,
        &[
            b"R".as_slice(),
            digits.format(number).as_bytes(),
            suffix(mode).as_slice(),
        ],
    )
}

fn suffix(mode: Mode) -> [u8; 4]
    ensures { result ≡ mode_suffix mode }
{
    match mode {
        Mode::User => *b"_usr",
        Mode::FastInterrupt => *b"_fiq",
        Mode::Interrupt => *b"_irq",
        Mode::Supervisor => *b"_svc",
    }
}
