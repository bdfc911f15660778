//! A line: a label, a statement and a comment, of which each may be missing.

ghost use Rattle.std.specs.Prelude.{◌≡◌, ◌≤◌, ◌<◌, ◌^◌, length, IfOk, option_map};
ghost use Rattle.assembler_reading.specs.Labels.{address_of};
ghost use Rattle.assembler.specs.Line.{label_of, line};

use crate::output::Output;
use crate::statements::put_statement;
use assembler_reading::{Labels, after_word, is_label, word};
use std::alloc::AllocError;

/// Writes a line, and answers its label, which may be empty, and the label's address; or `None`
/// where the line isn't of the grammar.
pub(crate) fn put_line<'s>(
    labels: &Labels,
    origin: u32,
    text: &'s [u8],
    output: &mut Output,
) -> Result<Option<(&'s [u8], u32)>, AllocError>
    requires origin { origin < 2 ^ 26 }
    requires room { length output.old.bytes ≤ 1048576 }
    ensures { IfOk result (λ read. option_map (λ r. record {
      label = r.0.now;
      statement = record { place = r.1; written = output.new };
    }) read
        ≡ line (address_of labels.now) origin output.old.bytes text.now) }
{
    let Some(label) = label_of(text) else {
        return Ok(None);
    };
    match put_statement(labels, origin, after_word(text), output)? {
        Some(place) => Ok(Some((label, place))),
        None => Ok(None),
    }
}

// The label that a line begins with, or an empty word.
fn label_of(text: &[u8]) -> Option<&[u8]>
    ensures { option_map (λ label. label.now) result ≡ label_of text.now }
{
    let label = word(text);
    if label.is_empty() || is_label(label) {
        Some(label)
    } else {
        None
    }
}
