//! The core in records: registers of all banks, flags, mode and program counter.

ghost use Rattle.std.specs.Prelude.{map, OnOk};
ghost use Rattle.trace_effects.specs.changes.Status.{flag_change};
ghost use Rattle.trace_moments.specs.CoreFields.{ShowsCore, flag_field, flag_fields, flags_that_differ, jump_fields, mode_fields, register_field, register_fields};
ghost use Rattle.trace_moments.specs.Fields.{HasMore, IsWhether};

use crate::names::{flag_name, mode_name, register_name};
use arm_core::{Cpu, Mode, Psr};
use std::alloc::AllocError;
use trace_effects::changes::{
    Flag, REGISTERS, RegisterChange, changed_flag, changed_mode, home_of, jump_of,
};
use trace_effects::record_text::{Bracket, RecordText};
use trace_effects::shown_registers::{WrittenRegisters, shown_registers};

/// Writes what a core differs in from one before it, and registers that were written; and under a name
/// where it goes on, if that isn't the address that was expected.
///
/// # Errors
///
/// Memory ran out.
pub fn push_core_changes(
    text: &mut RecordText,
    before: &Cpu,
    after: &Cpu,
    written: &WrittenRegisters,
    name: &[u8],
    expected: u32,
) -> Result<(), AllocError>
    ensures { OnOk result (ShowsCore name.now expected before.now after.now text.old text.new) }
{
    let reported = shown_registers(before, after, written);
    push_registers(text, reported.as_slice())?;
    push_flags(text, before.psr(), after.psr())?;
    push_mode(text, changed_mode(before.psr(), after.psr()))?;
    push_jump(text, name, jump_of(expected, after))?;
    Ok(())
}

// Writes registers by their new values, if there are some.
fn push_registers(text: &mut RecordText, reported: &[RegisterChange]) -> Result<(), AllocError>
    ensures { OnOk result (HasMore text.old text.new (register_fields reported.now)) }
{
    if reported.is_empty() {
        return Ok(());
    }
    text.open_field(b"regs", Bracket::Object)?;
    push_each_register(text, reported)?;
    text.close(Bracket::Object)?;
    Ok(())
}

fn push_each_register(text: &mut RecordText, reported: &[RegisterChange]) -> Result<(), AllocError>
    ensures { OnOk result (HasMore text.old text.new (map register_field reported.now)) }
{
    for register in reported {
        text.number_field(register_name(register.place), u64::from(register.new))?;
    }
    Ok(())
}

// Writes the flags that differ, if some do.
fn push_flags(text: &mut RecordText, before: Psr, after: Psr) -> Result<(), AllocError>
    ensures { OnOk result
        (HasMore text.old text.new (flag_fields (λ flag. flag_change flag before after))) }
{
    if !has_flag_changed(before, after) {
        return Ok(());
    }
    text.open_field(b"flags", Bracket::Object)?;
    push_each_flag(text, before, after)?;
    text.close(Bracket::Object)?;
    Ok(())
}

fn has_flag_changed(before: Psr, after: Psr) -> bool
    ensures { IsWhether result (flags_that_differ (λ flag. flag_change flag before after)) }
{
    changed_flag(Flag::Negative, before, after).is_some()
        || changed_flag(Flag::Zero, before, after).is_some()
        || changed_flag(Flag::Carry, before, after).is_some()
        || changed_flag(Flag::Overflow, before, after).is_some()
        || changed_flag(Flag::InterruptsOff, before, after).is_some()
        || changed_flag(Flag::FastInterruptsOff, before, after).is_some()
}

fn push_each_flag(text: &mut RecordText, before: Psr, after: Psr) -> Result<(), AllocError>
    ensures { OnOk result
        (HasMore text.old text.new (flags_that_differ (λ flag. flag_change flag before after))) }
{
    push_flag(text, Flag::Negative, before, after)?;
    push_flag(text, Flag::Zero, before, after)?;
    push_flag(text, Flag::Carry, before, after)?;
    push_flag(text, Flag::Overflow, before, after)?;
    push_flag(text, Flag::InterruptsOff, before, after)?;
    push_flag(text, Flag::FastInterruptsOff, before, after)?;
    Ok(())
}

#[tactic(auto, using(crate::proofs::FieldLemmas::one_or_none))]
fn push_flag(text: &mut RecordText, flag: Flag, before: Psr, after: Psr) -> Result<(), AllocError>
    ensures { OnOk result
        (HasMore text.old text.new (flag_field flag (flag_change flag before after))) }
{
    match changed_flag(flag, before, after) {
        Some(true) => {
            text.number_field(flag_name(flag), 1)?;
            Ok(())
        }
        Some(false) => {
            text.number_field(flag_name(flag), 0)?;
            Ok(())
        }
        None => Ok(()),
    }
}

#[tactic(auto, using(crate::proofs::FieldLemmas::one_or_none))]
fn push_mode(text: &mut RecordText, mode: Option<Mode>) -> Result<(), AllocError>
    ensures { OnOk result (HasMore text.old text.new (mode_fields mode)) }
{
    match mode {
        Some(mode) => {
            text.string_field(b"mode", mode_name(mode))?;
            Ok(())
        }
        None => Ok(()),
    }
}

#[tactic(auto, using(crate::proofs::FieldLemmas::one_or_none))]
fn push_jump(text: &mut RecordText, name: &[u8], at: Option<u32>) -> Result<(), AllocError>
    ensures { OnOk result (HasMore text.old text.new (jump_fields name.now at)) }
{
    match at {
        Some(at) => {
            text.number_field(name, u64::from(at))?;
            Ok(())
        }
        None => Ok(()),
    }
}

/// Writes all of a core.
///
/// # Errors
///
/// Memory ran out.
pub fn push_core(text: &mut RecordText, cpu: &Cpu) -> Result<(), AllocError> {
    text.open_field(b"regs", Bracket::Object)?;
    for place in 0..REGISTERS as u32 {
        let (mode, number) = home_of(place);
        let value = cpu.register_in(mode, number);
        text.number_field(register_name(place), u64::from(value))?;
    }
    text.close(Bracket::Object)?;
    let psr = cpu.psr();
    text.open_field(b"flags", Bracket::Object)?;
    text.number_field(b"N", u64::from(psr.negative))?;
    text.number_field(b"Z", u64::from(psr.zero))?;
    text.number_field(b"C", u64::from(psr.carry))?;
    text.number_field(b"V", u64::from(psr.overflow))?;
    text.number_field(b"I", u64::from(psr.interrupts_off))?;
    text.number_field(b"F", u64::from(psr.fast_interrupts_off))?;
    text.close(Bracket::Object)?;
    text.string_field(b"mode", mode_name(psr.mode))?;
    text.number_field(b"pc", u64::from(cpu.pc()))
}
