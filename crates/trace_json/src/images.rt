//! Images in records: what a block has made, with its labels and the lines of its bytes.

use assembler::{Labels, labels_of_lines};
use assembler_text::naming::words::{after_word, is_end};
use itoa::Buffer;
use profile::text_lines::Lines;
use std::alloc::{AllocError, Global};
use trace_effects::record_text::{Bracket, RecordText};

/// Writes an image that a block has made: of one that was assembled its labels, and which line of the
/// script has which bytes.
///
/// # Errors
///
/// Memory ran out.
pub fn push_image(
    alloc: Global,
    text: &mut RecordText,
    name: &[u8],
    length: usize,
    source: Option<(&Lines, usize, u32)>,
) -> Result<(), AllocError> {
    let origin = match source {
        Some((_lines, _count, origin)) => origin,
        None => 0,
    };
    text.open_field(b"image", Bracket::Object)?;
    text.string_field(b"name", name)?;
    text.number_field(b"length", length as u64)?;
    text.number_field(b"origin", u64::from(origin))?;
    if let Some((lines, count, origin)) = source {
        push_labels(alloc, text, lines, count, origin)?;
        push_lines(alloc, text, lines, count, origin, length)?;
    }
    text.close(Bracket::Object)
}

fn push_labels(
    alloc: Global,
    text: &mut RecordText,
    lines: &Lines,
    count: usize,
    origin: u32,
) -> Result<(), AllocError> {
    let Ok(labels) = labels_of_lines(alloc, lines, count, origin) else {
        return Err(AllocError);
    };
    text.open_field(b"labels", Bracket::Object)?;
    for place in 0..labels.count() {
        if let Some((name, address)) = labels.entry(place) {
            text.number_field(name, u64::from(address.saturating_sub(origin)))?;
        }
    }
    text.close(Bracket::Object)
}

// The lines that have bytes: each with the offset of its first one in the image.
fn push_lines(
    alloc: Global,
    text: &mut RecordText,
    lines: &Lines,
    count: usize,
    origin: u32,
    length: usize,
) -> Result<(), AllocError> {
    let labelled = labelled_text(alloc, lines, count)?;
    let block = Lines::new(labelled.as_slice());
    let Ok(places) = labels_of_lines(alloc, &block, count, origin) else {
        return Err(AllocError);
    };
    text.open_field(b"lines", Bracket::List)?;
    let mut rest = lines.again();
    for index in 0..count {
        let Some(line) = rest.next_line() else {
            break;
        };
        let place = offset_of(&places, index, origin, length);
        let next = offset_of(&places, index.saturating_add(1), origin, length);
        if place < next && !is_end(after_word(line)) {
            push_line(text, rest.number(), place, next - place)?;
        }
    }
    text.close(Bracket::List)
}

fn push_line(
    text: &mut RecordText,
    number: usize,
    offset: u64,
    bytes: u64,
) -> Result<(), AllocError> {
    text.open(Bracket::List)?;
    text.number(number as u64)?;
    text.number(offset)?;
    text.number(bytes)?;
    text.close(Bracket::List)
}

// Where in the image the line of a number stands; behind the last is its end.
fn offset_of(places: &Labels, index: usize, origin: u32, length: usize) -> u64 {
    match places.entry(index) {
        Some((_name, address)) => u64::from(address.saturating_sub(origin)),
        None => length as u64,
    }
}

// The lines of a block, each with a label of its own in place of what label it has.
fn labelled_text(alloc: Global, lines: &Lines, count: usize) -> Result<Vec<u8>, AllocError> {
    let mut text = Vec::new(alloc);
    let mut rest = lines.again();
    for index in 0..count {
        let Some(line) = rest.next_line() else {
            return Ok(text);
        };
        let mut digits = Buffer::new();
        text.extend_from_slice(b"line")?;
        text.extend_from_slice(digits.format(index).as_bytes())?;
        text.extend_from_slice(after_word(line))?;
        text.push(b'\n')?;
    }
    Ok(text)
}
