//! The items of DCD and DCB.

ghost use Rattle.std.specs.Prelude.{◌≡◌, ◌≤◌, length, IfOk, option_map};
ghost use Rattle.std.specs.List.{prefix_len};
ghost use Rattle.assembler_reading.specs.Labels.{address_of};
ghost use Rattle.assembler.specs.Directives.{with_byte_read, is_text_byte, with_item_read, items, more_items, with_quoted_text, with_word_read};

use crate::directives::Data;
use crate::output::Output;
use assembler_reading::{Labels, byte, comma, expression};
use std::alloc::AllocError;

/// What follows what was written, or `None` where a text isn't of the grammar.
pub(crate) type Rest<'t> = Result<Option<&'t [u8]>, AllocError>;

/// Writes one item or more, parted by commas.
pub(crate) fn put_items<'t>(
    kind: Data,
    labels: &Labels,
    text: &'t [u8],
    output: &mut Output,
) -> Rest<'t>
    ensures { IfOk result (λ rest. option_map (λ rest. (output.new, rest.now)) rest
        ≡ items kind (address_of labels.now) output.old text.now) }
{
    let Some(rest) = put_item(kind, labels, text, output)? else {
        return Ok(None);
    };
    put_more_items(kind, labels, rest.len(), rest, output)
}

// The items after a comma each, at most `count`.
fn put_more_items<'t>(
    kind: Data,
    labels: &Labels,
    count: usize,
    text: &'t [u8],
    output: &mut Output,
) -> Rest<'t>
    ensures { IfOk result (λ rest. option_map (λ rest. (output.new, rest.now)) rest
        ≡ more_items count kind (address_of labels.now) output.old text.now) }
{
    let mut rest = text;
    for _items in 0..count {
        let Some(after) = comma(rest) else {
            return Ok(Some(rest));
        };
        let Some(next) = put_item(kind, labels, after, output)? else {
            return Ok(None);
        };
        rest = next;
    }
    Ok(Some(rest))
}

fn put_item<'t>(kind: Data, labels: &Labels, text: &'t [u8], output: &mut Output) -> Rest<'t>
    ensures { IfOk result (λ rest. option_map (λ rest. (output.new, rest.now)) rest
        ≡ with_item_read kind (address_of labels.now) output.old text.now) }
{
    match kind {
        Data::Words => put_word(labels, text, output),
        Data::Bytes => match byte(b'"', text) {
            Some(after) => put_quoted(after, output),
            None => put_byte(labels, text, output),
        },
    }
}

fn put_word<'t>(labels: &Labels, text: &'t [u8], output: &mut Output) -> Rest<'t>
    ensures { IfOk result (λ rest. option_map (λ rest. (output.new, rest.now)) rest
        ≡ with_word_read (address_of labels.now) output.old text.now) }
{
    let Some((value, rest)) = expression(labels, text) else {
        return Ok(None);
    };
    output.push_word(value)?;
    Ok(Some(rest))
}

fn put_byte<'t>(labels: &Labels, text: &'t [u8], output: &mut Output) -> Rest<'t>
    ensures { IfOk result (λ rest. option_map (λ rest. (output.new, rest.now)) rest
        ≡ with_byte_read (address_of labels.now) output.old text.now) }
{
    let Some((value, rest)) = expression(labels, text) else {
        return Ok(None);
    };
    output.push_byte(value)?;
    Ok(Some(rest))
}

// What follows the first quote of a text, up to its second.
fn put_quoted<'t>(text: &'t [u8], output: &mut Output) -> Rest<'t>
    ensures { IfOk result (λ rest. option_map (λ rest. (output.new, rest.now)) rest
        ≡ with_quoted_text output.old text.now) }
{
    let len = text_len(text);
    let Some(rest) = byte(b'"', &text[len..]) else {
        return Ok(None);
    };
    output.push_text(&text[..len])?;
    Ok(Some(rest))
}

fn text_len(text: &[u8]) -> usize
    ensures length { result ≡ prefix_len is_text_byte text.now }
    ensures within { result ≤ length text.now }
{
    text.iter().take_while(|byte| is_text_byte(**byte)).count()
}

fn is_text_byte(byte: u8) -> bool
    ensures { result ≡ is_text_byte byte }
{
    byte >= b' ' && byte <= b'~' && byte != b'"'
}
