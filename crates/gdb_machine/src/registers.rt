//! The registers as GDB numbers them.

ghost use Rattle.std.specs.Prelude.{◌≡◌, ◌<◌, ℕ, IfOk, IfSome};
ghost use Rattle.arm_core.specs.Psr.{mode_number as mode_number_shown};
ghost use Rattle.gdb_machine.specs.Registers.{all_registers_text, register_bank as bank_shown, register_shown as shown, register_reply, status_word as status_shown, word_digits as word_shown};

use arm_core::{Cpu, Mode, Psr};
use hex::encode;
use std::alloc::{AllocError, Global};

/// How many registers there are.
const REGISTERS: u32 = 36;

/// The register of that number, if there is one: R0 to R14 of the present mode, the program counter,
/// the status, R15 as one word, and from 18 on those of all banks.
pub fn register_shown(cpu: &Cpu, number: u32) -> Option<u32>
    ensures { result ≡ shown cpu.now number }
{
    if number < 15 {
        Some(cpu.register(number))
    } else if number == 15 {
        Some(cpu.pc())
    } else if number == 16 {
        Some(status_word(cpu.psr()))
    } else if number == 17 {
        Some(cpu.register(15))
    } else {
        let (mode, register) = register_bank(number)?;
        Some(cpu.register_in(mode, register))
    }
}

/// The mode and the register that a number from 18 on means.
pub(crate) fn register_bank(number: u32) -> Option<(Mode, u32)>
    ensures value { result ≡ bank_shown number }
    ensures bound { IfSome result (λ bank. bank.1 < 15) }
{
    if number < 18 {
        None
    } else if number < 25 {
        Some((Mode::User, number - 10))
    } else if number < 32 {
        Some((Mode::FastInterrupt, number - 17))
    } else if number < 34 {
        Some((Mode::Interrupt, number - 19))
    } else if number < 36 {
        Some((Mode::Supervisor, number - 21))
    } else {
        None
    }
}

/// The status as a later processor has it in a mode of 26 bits.
pub(crate) fn status_word(psr: Psr) -> u32
    ensures { result ≡ status_shown psr }
{
    let flags = (u32::from(psr.negative) << 31)
        + (u32::from(psr.zero) << 30)
        + (u32::from(psr.carry) << 29)
        + (u32::from(psr.overflow) << 28);
    let masks = (u32::from(psr.interrupts_off) << 7) + (u32::from(psr.fast_interrupts_off) << 6);
    flags + masks + mode_number(psr.mode)
}

fn mode_number(mode: Mode) -> u32
    ensures value { result ≡ mode_number_shown mode }
    ensures below { result < 4 }
{
    match mode {
        Mode::User => 0,
        Mode::FastInterrupt => 1,
        Mode::Interrupt => 2,
        Mode::Supervisor => 3,
    }
}

/// A word's four bytes, the lowest first, as pairs of digits.
pub(crate) fn word_digits(alloc: Global, word: u32) -> Result<Vec<u8>, AllocError>
    ensures { IfOk result (λ text. text.items ≡ word_shown word) }
{
    Ok(encode(alloc, word.to_le_bytes())?.into_bytes())
}

/// A register, or that there is none of that number.
pub fn one_register(alloc: Global, cpu: &Cpu, number: u32) -> Result<Vec<u8>, AllocError>
    ensures { IfOk result (λ text. text.items ≡ register_reply cpu.now number) }
{
    match register_shown(cpu, number) {
        Some(value) => word_digits(alloc, value),
        None => Vec::from_slice(alloc, b"E16"),
    }
}

/// All registers.
#[tactic(auto, using(crate::proofs::RegisterLemmas::register_steps))]
pub fn all_registers(alloc: Global, cpu: &Cpu) -> Result<Vec<u8>, AllocError>
    ensures { IfOk result (λ text. text.items ≡ all_registers_text cpu.now) }
{
    let mut text = Vec::new(alloc);
    let mut number = 0;
    let mut left = REGISTERS;
    while left > 0 {
        text.extend_from_slice(one_register(alloc, cpu, number)?.as_slice())?;
        number += 1;
        left -= 1;
    }
    Ok(text)
}
