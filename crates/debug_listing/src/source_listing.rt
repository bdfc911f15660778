//! The listing of an image that an ASM block has made, and the texts of such blocks.

ghost use Rattle.debug_listing.specs.BlockErrors.{source_without};
ghost use Rattle.std.specs.Prelude.{[], ◌≡◌, ◌≤◌, ◌++◌, length, slice_get, slice_index_or, option_map, IfOk, OnOk};
ghost use Rattle.std.specs.Str.Lines.{lines};
ghost use Rattle.command_shell_lines.specs.Blocks.{block_lines};
ghost use Rattle.command_shell_lines.specs.Requests.{request_of_command};
ghost use Rattle.debug_listing.specs.SourceListing.{bytes_made, digits_made, made_word, in_columns, labelled_lines, line_offset, listing_text, made_text, listing_row, rows_behind, rows_text, sources_after, times_text};

use crate::image_parts::push_texts;
use assembler_text::naming::Labels;
use assembler_text::naming::words::{after_spaces, after_word, is_end, is_name, word};
use command_shell_lines::{ScriptCommand, is_block_end};
use debug_tables::counts::StepCounts;
use debug_tables::labels_of_lines;
use itoa::Buffer;
use profile::HexText;
use profile::images::{ImageError, Images};
use profile::text_lines::Lines;
use std::alloc::{AllocError, Global};

/// Keeps the text of the ASM block of a line that has made an image, by the image's name.
///
/// # Errors
///
/// Memory ran out.
pub fn keep_source(
    alloc: Global,
    sources: &mut Images,
    command: &ScriptCommand<'_>,
    block: &Lines,
    is_refused: bool,
) -> Result<(), AllocError>
    ensures { OnOk result (sources.new ≡ sources_after is_refused sources.old
        (request_of_command command.now) (block_lines block.now.left)) }
{
    match *command {
        ScriptCommand::Asm(name, _) if !is_refused => {
            let text = text_of_block(alloc, block)?;
            match sources.add(alloc, name, text.as_slice()) {
                Err(ImageError::Memory) => Err(AllocError),
                _ => Ok(()),
            }
        }
        _ => Ok(()),
    }
}

// The lines up to a block's end as a text.
fn text_of_block(alloc: Global, block: &Lines) -> Result<Vec<u8>, AllocError>
    ensures { IfOk result (λ text. text.items ≡ source_without [] 1 (block_lines block.now.left)) }
{
    let mut text = Vec::new(alloc);
    let mut lines = block.again();
    while let Some(line) = lines.next_line() {
        if is_block_end(line) {
            return Ok(text);
        }
        push_texts(&mut text, &[line, b"\r\n".as_slice()])?;
    }
    Ok(text)
}

/// What LISTING shows of an image, where there is one, with the text of its block and where it stands, where these
/// are known: a row for each line.
///
/// # Errors
///
/// Memory ran out.
pub fn listing_text(
    alloc: Global,
    counts: &StepCounts,
    image: Option<&[u8]>,
    source: Option<&[u8]>,
    start: Option<u32>,
) -> Result<Vec<u8>, AllocError>
    ensures { IfOk result (λ text. text.items ≡ listing_text counts.now
        (option_map (λ bytes. bytes.now) image.entry) (option_map (λ text. text.now) source.entry) start) }
{
    match (image, source, start) {
        (None, _, _) => Vec::from_slice(alloc, b"refused NoImage\n"),
        (Some(bytes), Some(source), Some(start)) => {
            rows_text(alloc, counts, start, bytes, source)
        }
        _ => Vec::from_slice(alloc, b"refused NoSource\n"),
    }
}

// The rows of a block's lines. A block that has made an image has places, so that it is memory that lacks where
// there are none.
fn rows_text(
    alloc: Global,
    counts: &StepCounts,
    start: u32,
    bytes: &[u8],
    source: &[u8],
) -> Result<Vec<u8>, AllocError>
    ensures { IfOk result (λ text. text.items ≡ rows_text counts.now start bytes.now source.now) }
{
    let labelled = labelled_lines(alloc, source)?;
    let block = Lines::new(labelled.as_slice());
    match labels_of_lines(alloc, &block, block.count(), 0) {
        Ok(places) => rows_of_lines(alloc, counts, &places, start, bytes, source),
        Err(_) => Err(AllocError),
    }
}

fn rows_of_lines(
    alloc: Global,
    counts: &StepCounts,
    places: &Labels,
    start: u32,
    bytes: &[u8],
    source: &[u8],
) -> Result<Vec<u8>, AllocError>
    ensures { IfOk result (λ text. text.items
        ≡ rows_behind counts.now places.now start bytes.now 0 (lines source.now)) }
{
    let mut text = Vec::new(alloc);
    let mut lines = Lines::new(source);
    while let Some(line) = lines.next_line() {
        let number = lines.number();
        let address = start.wrapping_add(offset_at(places, number.saturating_sub(1)));
        let made = bytes_made(places, bytes, number, line);
        push_row(&mut text, counts, address, made, number, line)?;
    }
    Ok(text)
}

// The lines of a text, each with a label of its own in place of the one that it has.
fn labelled_lines(alloc: Global, text: &[u8]) -> Result<Vec<u8>, AllocError>
    ensures { IfOk result (λ labelled. labelled.items ≡ labelled_lines 0 (lines text.now)) }
{
    let mut labelled = Vec::new(alloc);
    let mut lines = Lines::new(text);
    let mut digits = Buffer::new();
    while let Some(line) = lines.next_line() {
        let number = digits.format(lines.number()).as_bytes();
        push_texts(
            &mut labelled,
            &[
                b"line".as_slice(),
                number,
                after_word(line),
                b"\n".as_slice(),
            ],
        )?;
    }
    Ok(labelled)
}

// How many bytes of the image stand before the line at a place.
fn offset_at(places: &Labels, place: usize) -> u32
    ensures { result ≡ line_offset (slice_get places.now place) }
{
    match places.entry(place) {
        Some((_name, offset)) => offset,
        None => u32::MAX,
    }
}

// The bytes of an image that the line of a number has made.
fn bytes_made<'a>(places: &Labels, bytes: &'a [u8], number: usize, line: &[u8]) -> &'a [u8]
    ensures { result.now ≡ bytes_made places.now bytes.now number line.now }
{
    if is_end(after_word(line)) {
        return &[];
    }
    let start = offset_at(places, number.saturating_sub(1)) as usize;
    let behind = &bytes[start.min(bytes.len())..];
    let count = (offset_at(places, number) as usize).saturating_sub(start);
    &behind[..count.min(behind.len())]
}

// The row of the line of a number, which has made bytes that stand at an address.
fn push_row(
    text: &mut Vec<u8>,
    counts: &StepCounts,
    address: u32,
    made: &[u8],
    number: usize,
    line: &[u8],
) -> Result<(), AllocError>
    ensures { OnOk result (text.new.items
        ≡ text.old.items ++ listing_row counts.now address made.now number line.now) }
{
    let of_bytes = is_name(word(after_spaces(after_word(line))), b"DCB");
    push_times(text, counts, address, made.is_empty())?;
    push_made(text, of_bytes, address, made)?;
    push_columns(text, 5, Buffer::new().format(number).as_bytes())?;
    push_texts(text, &[b" ".as_slice(), line, b"\n".as_slice()])
}

// How often the step at the first byte was taken, while steps are counted.
fn push_times(
    text: &mut Vec<u8>,
    counts: &StepCounts,
    address: u32,
    is_blank: bool,
) -> Result<(), AllocError>
    ensures { OnOk result (text.new.items ≡ text.old.items ++ times_text counts.now address is_blank) }
{
    if !counts.is_on() {
        return Ok(());
    }
    let mut digits = Buffer::new();
    let times = digits.format(counts.times(address)).as_bytes();
    push_columns(text, 10, if is_blank { b"" } else { times })?;
    text.extend_from_slice(b" ")
}

// The address and the first bytes.
fn push_made(text: &mut Vec<u8>, of_bytes: bool, at: u32, made: &[u8]) -> Result<(), AllocError>
    ensures { OnOk result (text.new.items ≡ text.old.items ++ made_text of_bytes at made.now) }
{
    if made.is_empty() {
        return push_columns(text, 19, b"");
    }
    push_texts(text, &[HexText::word(at).as_slice(), b" ".as_slice()])?;
    push_digits(text, of_bytes, made)
}

fn push_digits(text: &mut Vec<u8>, of_bytes: bool, made: &[u8]) -> Result<(), AllocError>
    ensures { OnOk result (text.new.items ≡ text.old.items ++ digits_made of_bytes made.now) }
{
    let digits = HexText::word(made_word(of_bytes, made));
    let width = 2 * made.len().min(4);
    text.extend_from_slice(&digits.as_slice()[..width])?;
    if made.len() > 4 {
        text.extend_from_slice(b"..")
    } else {
        push_columns(text, 10 - width, b"")
    }
}

// The first four bytes, with zeros in place of those that aren't there.
fn made_word(of_bytes: bool, made: &[u8]) -> u32
    ensures { result ≡ made_word of_bytes made.now }
{
    let first = [
        byte_at(made, 0),
        byte_at(made, 1),
        byte_at(made, 2),
        byte_at(made, 3),
    ];
    if of_bytes {
        u32::from_be_bytes(first)
    } else {
        u32::from_le_bytes(first)
    }
}

fn byte_at(made: &[u8], place: usize) -> u8
    ensures { result ≡ slice_index_or made.now place 0 }
{
    match made.get(place) {
        Some(byte) => *byte,
        None => 0,
    }
}

fn push_columns(text: &mut Vec<u8>, width: usize, digits: &[u8]) -> Result<(), AllocError>
    requires { width ≤ 19 }
    ensures { OnOk result (text.new.items ≡ text.old.items ++ in_columns width digits.now) }
{
    let blanks = width.saturating_sub(digits.len());
    text.resize(text.len() + blanks, b' ')?;
    text.extend_from_slice(digits)
}
