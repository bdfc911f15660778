//! The view REGS: the registers of the present mode and the status.

ghost use Rattle.std.specs.Prelude.{◌≡◌, ◌≤◌, ◌++◌, codes};
ghost use Rattle.swi_dispatch_guest.specs.Output.{Writes};
ghost use Rattle.debugger.specs.Registers.{register_label, row_text, flags_and_mode_text, status_text, cpu_registers_text, flag_letter, flag_letters, mode_text};
ghost use Rattle.swi_dispatch_guest.specs.GuestState.{state_of};

use assembler_text::HexText;
use swi_dispatch_guest::{Cpu, Machine, Mode, Psr, Sink, WriteFault, push_all, push_parts};

/// Writes the registers of the present mode, four on a line, and a line of the status, in which a
/// set flag stands in capitals.
pub fn show_regs<W: Sink>(machine: &Machine, sink: &mut W) -> Result<(), WriteFault>
    ensures writes { Writes W.contents W.has_failed sink.old sink.new result
        (cpu_registers_text (state_of machine.now.guest).cpu) }
{
    show_core(machine.cpu(), sink)
}

fn show_core<W: Sink>(cpu: &Cpu, sink: &mut W) -> Result<(), WriteFault>
    ensures { Writes W.contents W.has_failed sink.old sink.new result (cpu_registers_text cpu.now) }
{
    show_row(cpu, 0, sink)?;
    show_row(cpu, 4, sink)?;
    show_row(cpu, 8, sink)?;
    show_row(cpu, 12, sink)?;
    show_status(cpu.psr(), sink)
}

// Four registers from the `first` on.
fn show_row<W: Sink>(cpu: &Cpu, first: u32, sink: &mut W) -> Result<(), WriteFault>
    requires { first ≤ 12 }
    ensures { Writes W.contents W.has_failed sink.old sink.new result (row_text cpu.now first) }
{
    push_parts(
        sink,
        &[
            label(first).as_slice(),
            HexText::word(cpu.register(first)).as_slice(),
            b" ".as_slice(),
            label(first + 1).as_slice(),
            HexText::word(cpu.register(first + 1)).as_slice(),
            b" ".as_slice(),
            label(first + 2).as_slice(),
            HexText::word(cpu.register(first + 2)).as_slice(),
            b" ".as_slice(),
            label(first + 3).as_slice(),
            HexText::word(cpu.register(first + 3)).as_slice(),
            b"\n".as_slice(),
        ],
    )
}

fn show_status<W: Sink>(psr: Psr, sink: &mut W) -> Result<(), WriteFault>
    ensures { Writes W.contents W.has_failed sink.old sink.new result (status_text psr ++ codes "\n") }
{
    push_status(sink, psr)?;
    push_all(sink, b"\n")
}

/// Writes a status without a line end, `PSR nzCvif USR`: the flags and the mode, a set flag in
/// capitals.
pub fn push_status<W: Sink>(sink: &mut W, psr: Psr) -> Result<(), WriteFault>
    ensures writes { Writes W.contents W.has_failed sink.old sink.new result (status_text psr) }
{
    push_all(sink, b"PSR ")?;
    push_flags(sink, psr)
}

/// Writes the flags and the mode of a status, `nzCvif USR`, a set flag in capitals.
pub fn push_flags<W: Sink>(sink: &mut W, psr: Psr) -> Result<(), WriteFault>
    ensures writes { Writes W.contents W.has_failed sink.old sink.new result (flags_and_mode_text psr) }
{
    push_parts(
        sink,
        &[
            letters(psr).as_slice(),
            b" ".as_slice(),
            mode_name(psr.mode).as_slice(),
        ],
    )
}

// A register's name, padded to three places, and a space.
fn label(number: u32) -> [u8; 4]
    requires { number ≤ 15 }
    ensures { result ≡ register_label number }
{
    if number < 10 {
        [b'R', number as u8 + b'0', b' ', b' ']
    } else {
        [b'R', b'1', number as u8 + 38, b' ']
    }
}

fn letters(psr: Psr) -> [u8; 6]
    ensures { result ≡ flag_letters psr }
{
    [
        letter(psr.negative, b'N'),
        letter(psr.zero, b'Z'),
        letter(psr.carry, b'C'),
        letter(psr.overflow, b'V'),
        letter(psr.interrupts_off, b'I'),
        letter(psr.fast_interrupts_off, b'F'),
    ]
}

fn letter(is_set: bool, capital: u8) -> u8
    requires { capital ≤ 90 }
    ensures { result ≡ flag_letter is_set capital }
{
    if is_set { capital } else { capital + 32 }
}

/// The mode's name: `USR`, `FIQ`, `IRQ` or `SVC`.
pub fn mode_name(mode: Mode) -> [u8; 3]
    ensures { result ≡ mode_text mode }
{
    match mode {
        Mode::User => *b"USR",
        Mode::FastInterrupt => *b"FIQ",
        Mode::Interrupt => *b"IRQ",
        Mode::Supervisor => *b"SVC",
    }
}
