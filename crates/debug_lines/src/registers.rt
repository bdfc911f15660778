//! The registers that a line can name.

ghost use Rattle.std.specs.Prelude.{◌≡◌, ◌∷◌, ◌==◌};
ghost use Rattle.std.specs.List.{slice_split};
ghost use Rattle.debug_lines.specs.Registers.{register_with_number, register_of_name, first_banked, register_in_bank, register_in_bank_of_parts, banked_register_named};

use crate::few_words::has_letters;
use crate::status::mode_named;
use arm_core::Mode;
use command_shell_lines::RegisterNumber;
use profile::text_lines::cut;

/// The register of that name, in either case: R0 to R14, SP or LR.
pub fn register_of_name(word: &[u8]) -> Option<RegisterNumber>
    ensures { result ≡ register_of_name word.now }
{
    if has_letters(word, b"SP") {
        Some(RegisterNumber::new(13))
    } else if has_letters(word, b"LR") {
        Some(RegisterNumber::new(14))
    } else {
        register_with_number(word)
    }
}

// The register R0 to R14.
fn register_with_number(word: &[u8]) -> Option<RegisterNumber>
    ensures { result ≡ register_with_number word.now }
{
    match word {
        [b'R' | b'r', digit @ b'0'..=b'9'] => {
            Some(RegisterNumber::new(u32::from(*digit - b'0')))
        }
        [b'R' | b'r', b'1', digit @ b'0'..=b'4'] => {
            Some(RegisterNumber::new(10 + u32::from(*digit - b'0')))
        }
        _ => None,
    }
}

/// The register of a mode's bank: a register's name, `_` and the mode.
pub fn banked_register_named(word: &[u8]) -> Option<(Mode, RegisterNumber)>
    ensures { result ≡ banked_register_named word.now }
{
    let (name, rest) = cut(word, b'_');
    match rest {
        Some(rest) => behind_name(name, rest),
        None => None,
    }
}

// The register of that name in the bank of the mode that stands behind the `_`.
fn behind_name(name: &[u8], text: &[u8]) -> Option<(Mode, RegisterNumber)>
    ensures { result ≡ register_in_bank_of_parts (name.now ∷ slice_split (λ b. b == 95) text.now) }
{
    let (mode, more) = cut(text, b'_');
    match more {
        Some(_) => None,
        None => register_in_bank(register_with_number(name), mode_named(mode)),
    }
}

fn register_in_bank(
    register: Option<RegisterNumber>,
    mode: Option<Mode>,
) -> Option<(Mode, RegisterNumber)>
    ensures { result ≡ register_in_bank register mode }
{
    let register = register?;
    let mode = mode?;
    if register.number() < first_banked(mode) {
        None
    } else {
        Some((mode, register))
    }
}

// The first register that a mode has of its own, or for USR that another mode has.
fn first_banked(mode: Mode) -> u32
    ensures { result ≡ first_banked mode }
{
    match mode {
        Mode::User | Mode::FastInterrupt => 8,
        Mode::Interrupt | Mode::Supervisor => 13,
    }
}
