//! The answers of lines that change modes.

ghost use Rattle.std.specs.Prelude.{◌≡◌, IfOk};
ghost use Rattle.std.specs.List.{flat_map};
ghost use Rattle.command_shell.specs.Answers.{refused_text};
ghost use Rattle.debug_modes.specs.Changes.{change_text, limit_text};

use itoa::Buffer;
use profile::HexText;
use std::alloc::{AllocError, Global};

/// Texts one after another, as one.
pub(crate) fn joined(alloc: Global, parts: &[&[u8]]) -> Result<Vec<u8>, AllocError>
    ensures { IfOk result (λ text. text.items ≡ flat_map (λ part. part.now) parts.now) }
{
    let mut text = Vec::new(alloc);
    for part in parts {
        text.extend_from_slice(part)?;
    }
    Ok(text)
}

/// `stub &6`, and the like.
pub(crate) fn at_line(alloc: Global, word: &[u8], address: u32) -> Result<Vec<u8>, AllocError>
    ensures { IfOk result (λ text. text.items ≡ change_text word.now address) }
{
    let digits = HexText::number(address);
    joined(
        alloc,
        &[word, b" &".as_slice(), digits.as_slice(), b"\n".as_slice()],
    )
}

/// `trace limit 1000`.
pub(crate) fn limit_line(alloc: Global, limit: u32) -> Result<Vec<u8>, AllocError>
    ensures { IfOk result (λ text. text.items ≡ limit_text limit) }
{
    let mut digits = Buffer::new();
    let limit = digits.format(limit).as_bytes();
    joined(
        alloc,
        &[b"trace limit ".as_slice(), limit, b"\n".as_slice()],
    )
}

/// `refused NoStub`, and the like.
///
/// # Errors
///
/// `AllocError` where the host has no memory for the text.
#[tactic(auto, unfolding(command_shell::specs::Answers::refused_text))]
pub fn refused_line(alloc: Global, reason: &[u8]) -> Result<Vec<u8>, AllocError>
    ensures { IfOk result (λ text. text.items ≡ refused_text reason.now) }
{
    joined(alloc, &[b"refused ".as_slice(), reason, b"\n".as_slice()])
}
