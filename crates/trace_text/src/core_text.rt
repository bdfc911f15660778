//! What a step leaves in the core, as words.

ghost use Rattle.std.specs.Prelude.{◌≡◌, ◌++◌};
ghost use Rattle.std.specs.List.{flat_map};
ghost use Rattle.profile.specs.Output.{Writes};
ghost use Rattle.trace_effects.specs.changes.Registers.{changes_of};
ghost use Rattle.trace_effects.specs.changes.Status.{flag_change};
ghost use Rattle.trace_text.specs.Core.{banked_register_name, core_words, flag_word, flag_words, hides, jump_word, mode_word, register_word};

use arm_core::{Cpu, Mode, Psr};
use itoa::Buffer;
use profile::{Sink, WriteFault, push_all, push_parts};
use trace_effects::changes::{
    Flag, RegisterChange, changed_flag, changed_mode, home_of, jump_of, next_change,
};
use trace_effects::columns::push_word;
use trace_store_text::{mode_name, push_banked_name};

/// Writes what differs between two cores, the second of which was expected to go on at an address:
/// each register of all banks, ` R0=00000009`, the program counter where it isn't that address, each
/// flag and the mode. A register of a bank that the second core's mode doesn't see has its mode
/// behind its name, ` R13_svc=01C01FFC`.
pub fn push_core<W: Sink>(
    sink: &mut W,
    expected: u32,
    before: &Cpu,
    after: &Cpu,
) -> Result<(), WriteFault>
    ensures writes { Writes W.contents W.has_failed sink.old sink.new result
        (core_words expected before.now after.now) }
{
    push_registers(sink, before, after)?;
    push_jump(sink, jump_of(expected, after))?;
    push_flags(sink, before.psr(), after.psr())?;
    push_mode(sink, changed_mode(before.psr(), after.psr()))
}

// Each is written as it is found.
fn push_registers<W: Sink>(sink: &mut W, before: &Cpu, after: &Cpu) -> Result<(), WriteFault>
    ensures { Writes W.contents W.has_failed sink.old sink.new result
        (flat_map (register_word after.now.psr.mode) (changes_of before.now after.now)) }
{
    let mut from = 0;
    while let Some(change) = next_change(before, after, from) {
        push_register(sink, after.psr().mode, &change)?;
        from = change.place + 1;
    }
    Ok(())
}

fn push_register<W: Sink>(
    sink: &mut W,
    mode: Mode,
    change: &RegisterChange,
) -> Result<(), WriteFault>
    ensures { Writes W.contents W.has_failed sink.old sink.new result (register_word mode change.now) }
{
    push_all(sink, b" ")?;
    push_name(sink, mode, change.place)?;
    push_all(sink, b"=")?;
    push_word(sink, change.new)
}

fn push_name<W: Sink>(sink: &mut W, mode: Mode, place: u32) -> Result<(), WriteFault>
    ensures { Writes W.contents W.has_failed sink.old sink.new result (banked_register_name mode place) }
{
    if place < 15 && !hides(mode, place) {
        let mut digits = Buffer::new();
        return push_parts(sink, &[b"R".as_slice(), digits.format(place).as_bytes()]);
    }
    let (bank, number) = home_of(place);
    push_banked_name(sink, bank, number)
}

fn hides(mode: Mode, number: u32) -> bool
    ensures { result ≡ hides mode number }
{
    match mode {
        Mode::User => false,
        Mode::FastInterrupt => number >= 8,
        Mode::Interrupt | Mode::Supervisor => number >= 13,
    }
}

fn push_jump<W: Sink>(sink: &mut W, jump: Option<u32>) -> Result<(), WriteFault>
    ensures { Writes W.contents W.has_failed sink.old sink.new result (jump_word jump) }
{
    match jump {
        None => Ok(()),
        Some(at) => {
            push_all(sink, b" PC=")?;
            push_word(sink, at)
        }
    }
}

fn push_flags<W: Sink>(sink: &mut W, before: Psr, after: Psr) -> Result<(), WriteFault>
    ensures { Writes W.contents W.has_failed sink.old sink.new result (flag_words before after) }
{
    let psrs = (before, after);
    push_two_flags(sink, psrs, (b'N', Flag::Negative), (b'Z', Flag::Zero))?;
    push_two_flags(sink, psrs, (b'C', Flag::Carry), (b'V', Flag::Overflow))?;
    push_two_flags(
        sink,
        psrs,
        (b'I', Flag::InterruptsOff),
        (b'F', Flag::FastInterruptsOff),
    )
}

// Two flags, each with its letter, where the second status differs from the first.
fn push_two_flags<W: Sink>(
    sink: &mut W,
    psrs: (Psr, Psr),
    first: (u8, Flag),
    second: (u8, Flag),
) -> Result<(), WriteFault>
    ensures { Writes W.contents W.has_failed sink.old sink.new result
        (flag_word first.0 (flag_change first.1 psrs.0 psrs.1)
        ++ flag_word second.0 (flag_change second.1 psrs.0 psrs.1)) }
{
    push_flag(sink, first.0, changed_flag(first.1, psrs.0, psrs.1))?;
    push_flag(sink, second.0, changed_flag(second.1, psrs.0, psrs.1))
}

fn push_flag<W: Sink>(sink: &mut W, letter: u8, change: Option<bool>) -> Result<(), WriteFault>
    ensures { Writes W.contents W.has_failed sink.old sink.new result (flag_word letter change) }
{
    match change {
        None => Ok(()),
        Some(is_set) => push_all(sink, &[b' ', letter, b'=', b'0' + u8::from(is_set)]),
    }
}

fn push_mode<W: Sink>(sink: &mut W, mode: Option<Mode>) -> Result<(), WriteFault>
    ensures { Writes W.contents W.has_failed sink.old sink.new result (mode_word mode) }
{
    match mode {
        None => Ok(()),
        Some(mode) => push_parts(sink, &[b" mode=".as_slice(), mode_name(mode).as_slice()]),
    }
}
