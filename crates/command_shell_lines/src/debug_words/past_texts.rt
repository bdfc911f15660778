//! Texts of what was done before, and of numbers in lines.

ghost use Rattle.std.specs.Prelude.{◌≡◌, ◌++◌, IfOk, OnOk};
ghost use Rattle.std.specs.Fmt.{decimal};
ghost use Rattle.command_shell_lines.specs.debug_words.PastTexts.{address_text, no_history_text, text_with_step, undone_text, when_text};

use assembler_text::HexText;
use itoa::Buffer;
use std::alloc::{AllocError, Global};

/// Puts the step that comes next behind the line that says where the machine stands.
///
/// # Errors
///
/// Memory ran out.
pub fn push_step(place: &mut Vec<u8>, step: u64) -> Result<(), AllocError>
    ensures { OnOk result (place.new.items ≡ text_with_step place.old.items step) }
{
    place.pop();
    place.extend_from_slice(b" step ")?;
    push_number(place, step)?;
    place.push(b'\n')?;
    Ok(())
}

/// How many steps were taken.
///
/// # Errors
///
/// Memory ran out.
pub fn when_line(alloc: Global, steps: u64, all: u64) -> Result<Vec<u8>, AllocError>
    ensures { IfOk result (λ text. text.items ≡ when_text steps all) }
{
    let mut text = Vec::from_slice(alloc, b"step ")?;
    push_number(&mut text, steps)?;
    if all > steps {
        text.extend_from_slice(b" of ")?;
        push_number(&mut text, all)?;
    }
    text.push(b'\n')?;
    Ok(text)
}

/// The line that was undone.
///
/// # Errors
///
/// Memory ran out.
pub fn undone_line(alloc: Global, line: u64, steps: u64) -> Result<Vec<u8>, AllocError>
    ensures { IfOk result (λ text. text.items ≡ undone_text line steps) }
{
    let mut text = Vec::from_slice(alloc, b"undone line ")?;
    push_number(&mut text, line)?;
    text.extend_from_slice(b", at step ")?;
    push_number(&mut text, steps)?;
    text.push(b'\n')?;
    Ok(text)
}

/// Why a line changes nothing: its moment isn't known.
///
/// # Errors
///
/// Memory ran out.
pub fn no_history(alloc: Global) -> Result<Vec<u8>, AllocError>
    ensures { IfOk result (λ text. text.items ≡ no_history_text) }
{
    Vec::from_slice(alloc, b"refused NoHistory\n")
}

/// A number, as it is read.
///
/// # Errors
///
/// Memory ran out.
pub fn push_number(text: &mut Vec<u8>, number: u64) -> Result<(), AllocError>
    ensures { OnOk result (text.new.items ≡ text.old.items ++ decimal number) }
{
    let mut digits = Buffer::new();
    text.extend_from_slice(digits.format(number).as_bytes())
}

/// An address, as `[00009020]=`.
///
/// # Errors
///
/// Memory ran out.
pub fn push_address(text: &mut Vec<u8>, address: u32) -> Result<(), AllocError>
    ensures { OnOk result (text.new.items ≡ text.old.items ++ address_text address) }
{
    text.push(b'[')?;
    text.extend_from_slice(HexText::word(address).as_slice())?;
    text.extend_from_slice(b"]=")
}
