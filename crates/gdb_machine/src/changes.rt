//! What a value of one of GDB's registers changes.

ghost use Rattle.std.specs.Prelude.{◌≡◌, IfSome};
ghost use Rattle.arm_core.specs.Psr.{mode_of as mode_answer};
ghost use Rattle.gdb_machine.specs.Changes.{CanBeMade, bank_change as bank_change_shown, place_change as place_change_shown, register_write as change_shown, status_change as status_change_shown, status_in as status_in_shown};
ghost use Rattle.gdb_machine.specs.Registers.{register_bank as bank_shown};

use crate::registers::{register_bank, status_word};
use arm_core::{Mode, Psr};
use profile::word::is_bit_set;

/// What a value of one of GDB's registers changes.
#[derive(Clone, Copy)]
pub enum RegisterWrite {
    /// One of R0 to R14 of the present mode.
    Present(u32, u32),
    /// The program counter.
    Place(u32),
    /// The flags, the interrupt bits and the mode.
    Status(Psr),
    /// One of R0 to R14 of a mode.
    Banked(Mode, u32, u32),
}

/// What a value of the register of that number changes; `None` where there is no such register, or it
/// can't have that value.
pub fn register_write(number: u32, value: u32) -> Option<RegisterWrite>
    ensures value { result ≡ change_shown number value }
    ensures made { IfSome result CanBeMade }
{
    if number < 15 {
        Some(RegisterWrite::Present(number, value))
    } else if number == 15 {
        place_change(value)
    } else if number == 16 {
        status_change(value)
    } else {
        bank_change(number, value)
    }
}

fn place_change(address: u32) -> Option<RegisterWrite>
    ensures value { result ≡ place_change_shown address }
    ensures made { IfSome result CanBeMade }
{
    if address % 4 == 0 && address < 1 << 26 {
        Some(RegisterWrite::Place(address))
    } else {
        None
    }
}

fn status_change(word: u32) -> Option<RegisterWrite>
    ensures value { result ≡ status_change_shown word }
    ensures made { IfSome result CanBeMade }
{
    let status = status_in(word);
    if status_word(status) == word {
        Some(RegisterWrite::Status(status))
    } else {
        None
    }
}

// The status in a word.
fn status_in(word: u32) -> Psr
    ensures { result ≡ status_in_shown word }
{
    Psr {
        negative: is_bit_set(word, 31),
        zero: is_bit_set(word, 30),
        carry: is_bit_set(word, 29),
        overflow: is_bit_set(word, 28),
        interrupts_off: is_bit_set(word, 7),
        fast_interrupts_off: is_bit_set(word, 6),
        mode: mode_of(word),
    }
}

// The mode that the two lowest bits of a word name.
fn mode_of(word: u32) -> Mode
    ensures { result ≡ mode_answer word }
{
    match word & 3 {
        0 => Mode::User,
        1 => Mode::FastInterrupt,
        2 => Mode::Interrupt,
        _ => Mode::Supervisor,
    }
}

fn bank_change(number: u32, value: u32) -> Option<RegisterWrite>
    ensures value { result ≡ bank_change_shown (bank_shown number) value }
    ensures made { IfSome result CanBeMade }
{
    let (mode, register) = register_bank(number)?;
    Some(RegisterWrite::Banked(mode, register, value))
}
