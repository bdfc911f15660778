//! What stands on a line after its label.

ghost use Rattle.std.specs.Prelude.{◌≡◌, ◌≤◌, ◌<◌, ◌^◌, length, IfOk, option_map};
ghost use Rattle.assembler_reading.specs.Labels.{address_of};
ghost use Rattle.assembler.specs.Line.{instruction_at, listed_at, listed_start, space_at, statement_at, statement_of};
ghost use Rattle.assembler.specs.Written.{program_to_whole_words};

use crate::directives::{Data, Directive, directive_named, size};
use crate::items::put_items;
use crate::output::Output;
use assembler_reading::{Labels, Read, after_word, instruction, is_end, spaces, word};
use std::alloc::AllocError;

/// Writes a statement or nothing, and answers the address at which a label on its line stands; or
/// `None` where it isn't of the grammar.
pub(crate) fn put_statement(
    labels: &Labels,
    origin: u32,
    text: &[u8],
    output: &mut Output,
) -> Result<Option<u32>, AllocError>
    requires origin { origin < 2 ^ 26 }
    requires room { length output.old.bytes ≤ 1048576 }
    ensures { IfOk result (λ place. option_map (λ place. record { place = place; written = output.new }) place
        ≡ statement_of (address_of labels.now) origin output.old.bytes text.now) }
{
    output.begin_line();
    if is_end(text) {
        return Ok(Some(output.end(origin)));
    }
    let Some(rest) = spaces(text) else {
        return Ok(None);
    };
    let Some((place, rest)) = put_statement_at(labels, origin, rest, output)? else {
        return Ok(None);
    };
    Ok(if is_end(rest) { Some(place) } else { None })
}

fn put_statement_at<'t>(
    labels: &Labels,
    origin: u32,
    text: &'t [u8],
    output: &mut Output,
) -> Result<Read<'t, u32>, AllocError>
    requires origin { origin < 2 ^ 26 }
    requires room { length output.old.bytes ≤ 1048576 }
    requires unrefused { output.old.fault ≡ None }
    ensures { IfOk result (λ read. option_map (λ r. (
      record { place = r.0; written = output.new },
      r.1.now,
    )) read
        ≡ statement_at (address_of labels.now) origin output.old.bytes text.now) }
{
    match directive_named(word(text)) {
        None => put_instruction(labels, origin, text, output),
        Some(Directive::Listed(kind)) => put_list(kind, labels, origin, after_word(text), output),
        Some(Directive::Space) => put_space(origin, after_word(text), output),
        Some(Directive::Align) => {
            let place = output.end(origin);
            output.align()?;
            Ok(Some((place, after_word(text))))
        }
    }
}

fn put_instruction<'t>(
    labels: &Labels,
    origin: u32,
    text: &'t [u8],
    output: &mut Output,
) -> Result<Read<'t, u32>, AllocError>
    requires origin { origin < 2 ^ 26 }
    requires room { length output.old.bytes ≤ 1048576 }
    requires unrefused { output.old.fault ≡ None }
    ensures { IfOk result (λ read. option_map (λ r. (
      record { place = r.0; written = output.new },
      r.1.now,
    )) read
        ≡ instruction_at (address_of labels.now) origin (program_to_whole_words output.old.bytes) text.now) }
{
    output.align()?;
    let place = output.end(origin);
    let Some((read, rest)) = instruction(labels, place, text) else {
        return Ok(None);
    };
    output.push_instruction(read)?;
    Ok(Some((place, rest)))
}

fn put_list<'t>(
    kind: Data,
    labels: &Labels,
    origin: u32,
    text: &'t [u8],
    output: &mut Output,
) -> Result<Read<'t, u32>, AllocError>
    requires origin { origin < 2 ^ 26 }
    requires room { length output.old.bytes ≤ 1048576 }
    requires unrefused { output.old.fault ≡ None }
    ensures { IfOk result (λ read. option_map (λ r. (
      record { place = r.0; written = output.new },
      r.1.now,
    )) read
        ≡ listed_at kind (address_of labels.now) origin (listed_start kind output.old.bytes) text.now) }
{
    if let Data::Words = kind {
        output.align()?;
    }
    let start = output.end(origin);
    let Some(items) = spaces(text) else {
        return Ok(None);
    };
    match put_items(kind, labels, items, output)? {
        Some(rest) => Ok(Some((start, rest))),
        None => Ok(None),
    }
}

fn put_space<'t>(
    origin: u32,
    text: &'t [u8],
    output: &mut Output,
) -> Result<Read<'t, u32>, AllocError>
    requires origin { origin < 2 ^ 26 }
    requires room { length output.old.bytes ≤ 1048576 }
    requires unrefused { output.old.fault ≡ None }
    ensures { IfOk result (λ read. option_map (λ r. (
      record { place = r.0; written = output.new },
      r.1.now,
    )) read
        ≡ space_at origin output.old.bytes text.now) }
{
    let place = output.end(origin);
    let Some(rest) = spaces(text) else {
        return Ok(None);
    };
    let Some((count, rest)) = size(rest) else {
        return Ok(None);
    };
    output.push_zeros(count)?;
    Ok(Some((place, rest)))
}
