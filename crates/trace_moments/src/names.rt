//! Names of registers, flags and modes.

ghost use Rattle.std.specs.Prelude.{◌≡◌};
ghost use Rattle.trace_moments.specs.CoreFields.{flag_name, mode_name, register_name};

use arm_core::Mode;
use trace_effects::changes::Flag;

/// The name of the register at a place of the file of all banks.
pub fn register_name(place: u32) -> &'static [u8]
    ensures { result.now ≡ register_name place }
{
    match place {
        0 => b"R0",
        1 => b"R1",
        2 => b"R2",
        3 => b"R3",
        4 => b"R4",
        5 => b"R5",
        6 => b"R6",
        7 => b"R7",
        8 => b"R8_usr",
        9 => b"R9_usr",
        10 => b"R10_usr",
        11 => b"R11_usr",
        12 => b"R12_usr",
        13 => b"R13_usr",
        14 => b"R14_usr",
        15 => b"R8_fiq",
        16 => b"R9_fiq",
        17 => b"R10_fiq",
        18 => b"R11_fiq",
        19 => b"R12_fiq",
        20 => b"R13_fiq",
        21 => b"R14_fiq",
        22 => b"R13_irq",
        23 => b"R14_irq",
        24 => b"R13_svc",
        _ => b"R14_svc",
    }
}

/// The name of a register as an instruction sees it, of the first nine.
pub fn plain_name(number: u32) -> &'static [u8] {
    match number {
        8 => b"R8",
        _ => register_name(number),
    }
}

/// The name of a flag.
pub(crate) fn flag_name(flag: Flag) -> &'static [u8]
    ensures { result.now ≡ flag_name flag }
{
    match flag {
        Flag::Negative => b"N",
        Flag::Zero => b"Z",
        Flag::Carry => b"C",
        Flag::Overflow => b"V",
        Flag::InterruptsOff => b"I",
        Flag::FastInterruptsOff => b"F",
    }
}

/// The name of a mode.
pub fn mode_name(mode: Mode) -> &'static [u8]
    ensures { result.now ≡ mode_name mode }
{
    match mode {
        Mode::User => b"USR",
        Mode::FastInterrupt => b"FIQ",
        Mode::Interrupt => b"IRQ",
        Mode::Supervisor => b"SVC",
    }
}
