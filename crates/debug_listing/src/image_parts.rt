//! Texts and code at offsets of a module's image, and how such a text is shown.

ghost use Rattle.std.specs.Prelude.{◌≡◌, ◌++◌, codes, map, IfOk, OnOk};
ghost use Rattle.std.specs.List.{flat_map};
ghost use Rattle.address_map.specs.Memory.{bytes_of};
ghost use Rattle.debug_listing.specs.ImageParts.{code_place, shown_character, syntax_line, text_of_image};

use address_map::AddressMap;
use arrayvec::ArrayVec;
use command_shell_lines::Origin;
use debug_labels::{MAX_TEXT, TextEnd, text_at};
use profile::memory_map::ADDRESS_LIMIT;
use std::alloc::{AllocError, Global};

/// Where the code at an offset of an image can be entered, if it can.
pub fn code_place(image: u32, len: u32, offset: u32) -> Option<Origin>
    ensures { result ≡ code_place image len offset }
{
    let at = image.wrapping_add(offset);
    if 0 < offset && offset < len && at % 4 == 0 && at < ADDRESS_LIMIT {
        Some(Origin::new(at))
    } else {
        None
    }
}

/// What a command answers that has too few words or too many, as
/// `error 220 &DC Syntax: *PotSet <pot> <seeds>`.
///
/// # Errors
///
/// Memory ran out.
pub fn syntax_line(alloc: Global, text: &[u8]) -> Result<Vec<u8>, AllocError>
    ensures { IfOk result (λ line. line.items ≡ syntax_line text.now) }
{
    let mut line = Vec::from_slice(alloc, b"error 220 &DC ")?;
    push_shown(&mut line, text)?;
    line.push(b'\n')?;
    Ok(line)
}

/// Puts a text behind another, each byte as a character.
///
/// # Errors
///
/// Memory ran out.
pub(crate) fn push_shown(line: &mut Vec<u8>, text: &[u8]) -> Result<(), AllocError>
    ensures { OnOk result (line.new.items ≡ line.old.items ++ map shown_character text.now) }
{
    for byte in text {
        line.push(shown_character(*byte))?;
    }
    Ok(())
}

/// Puts texts behind another, one after another.
///
/// # Errors
///
/// Memory ran out.
pub(crate) fn push_texts(text: &mut Vec<u8>, parts: &[&[u8]]) -> Result<(), AllocError>
    ensures { OnOk result (text.new.items ≡ text.old.items ++ flat_map (λ part. part.now) parts.now) }
{
    for part in parts {
        text.extend_from_slice(part)?;
    }
    Ok(())
}

/// The text at an offset of an image, empty where that has none.
pub fn text_of_image(
    memory: &AddressMap,
    image: u32,
    len: u32,
    offset: u32,
) -> ArrayVec<u8, MAX_TEXT>
    ensures { result.items ≡ text_of_image (bytes_of memory.now) image len offset }
{
    if offset == 0 || offset >= len {
        return ArrayVec::new();
    }
    match text_at::<MAX_TEXT>(memory, image.wrapping_add(offset), TextEnd::Zero) {
        Some(text) => text,
        None => ArrayVec::new(),
    }
}

// A byte as a character: a tab as a space, and `.` for one that is none from a space to `~`.
fn shown_character(byte: u8) -> u8
    ensures { result ≡ shown_character byte }
{
    match byte {
        b' '..=b'~' => byte,
        b'\t' => b' ',
        _ => b'.',
    }
}
