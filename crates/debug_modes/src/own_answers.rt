//! The answers of lines that are no script's.

ghost use Rattle.std.specs.Prelude.{◌≡◌, ◌++◌, codes, IfOk};
ghost use Rattle.command_shell.specs.Answers.{unknown_text};
ghost use Rattle.debug_modes.specs.OwnAnswers.{forget_text, put_text, reasoned_text};
ghost use Rattle.debug_modes.specs.expectations.Reasons.{reason_text};

use crate::answers::joined;
use crate::expectations::{Mismatch, push_reason};
use command_shell::print_unknown;
use itoa::Buffer;
use profile::HexText;
use profile::text_sink::TextSink;
use std::alloc::{AllocError, Global};

/// `forget count`, or `refused NoImage` where there was no image of that name.
///
/// # Errors
///
/// Memory ran out.
pub fn forget_text(alloc: Global, is_there: bool, name: &[u8]) -> Result<Vec<u8>, AllocError>
    ensures { IfOk result (λ text. text.items ≡ forget_text is_there name.now) }
{
    if !is_there {
        return Vec::from_slice(alloc, b"refused NoImage\n");
    }
    joined(alloc, &[b"forget ".as_slice(), name, b"\n".as_slice()])
}

/// What the lines of a word need, as a line.
///
/// # Errors
///
/// Memory ran out.
pub fn form_line(alloc: Global, form: &[u8]) -> Result<Vec<u8>, AllocError>
    ensures { IfOk result (λ text. text.items ≡ form.now ++ codes "\n") }
{
    joined(alloc, &[form, b"\n".as_slice()])
}

/// `put count at &9000`.
///
/// # Errors
///
/// Memory ran out.
pub fn put_text(alloc: Global, name: &[u8], address: u32) -> Result<Vec<u8>, AllocError>
    ensures { IfOk result (λ text. text.items ≡ put_text name.now address) }
{
    let digits = HexText::number(address);
    let (at, end) = (b" at &".as_slice(), b"\n".as_slice());
    joined(
        alloc,
        &[b"put ".as_slice(), name, at, digits.as_slice(), end],
    )
}

/// Why what should be so isn't, as text.
///
/// # Errors
///
/// Memory ran out.
pub fn text_of(alloc: Global, reason: &Mismatch) -> Result<Vec<u8>, AllocError>
    ensures { IfOk result (λ text. text.items ≡ reason_text reason.now) }
{
    let mut text = TextSink::new(alloc);
    match push_reason(&mut text, reason) {
        Ok(()) => Ok(text.into_bytes()),
        Err(_) => Err(AllocError),
    }
}

/// What a script answers to a line that means nothing.
///
/// # Errors
///
/// Memory ran out.
pub fn unknown_line(alloc: Global, number: usize) -> Result<Vec<u8>, AllocError>
    ensures { IfOk result (λ text. text.items ≡ unknown_text number) }
{
    let mut text = TextSink::new(alloc);
    match print_unknown(&mut text, number) {
        Ok(()) => Ok(text.into_bytes()),
        Err(_) => Err(AllocError),
    }
}

/// The same, and why.
///
/// # Errors
///
/// Memory ran out.
pub fn refusal_line(alloc: Global, number: usize, reason: &[u8]) -> Result<Vec<u8>, AllocError>
    ensures { IfOk result (λ text. text.items ≡ reasoned_text number reason.now) }
{
    let mut digits = Buffer::new();
    let number = digits.format(number).as_bytes();
    let (between, end) = (b": ".as_slice(), b"\n".as_slice());
    joined(
        alloc,
        &[b"? line ".as_slice(), number, between, reason, end],
    )
}
