//! All errors of an ASM block, one after another.

ghost use Rattle.std.specs.Prelude.{◌≡◌, ◌<◌, ◌^◌, IfOk};
ghost use Rattle.debug_listing.specs.BlockErrors.{BlockErrorsAreTheirLines, block_errors, line_without, next_error, part_kept, source_without};
ghost use Rattle.command_shell_lines.specs.Blocks.{block_lines};

use assembler_text::naming::Reason;
use assembler_text::naming::labels::is_label;
use assembler_text::naming::words::word;
use command_shell_lines::{Origin, is_block_end};
use debug_tables::{AsmError, assemble};
use profile::text_lines::Lines;
use std::alloc::{AllocError, Global};

// 20 are listed, and one more shows that there are more.
const MOST_FOUND: usize = 21;

/// The errors of the lines up to a block's end, assembled at that origin: the first, and then always
/// the first where nothing is left of the lines of those before it but their labels. At most 21.
///
/// # Errors
///
/// Memory ran out.
#[tactic(auto, using(crate::proofs::BlockErrorLemmas::block_error_steps))]
pub fn errors_of_block(
    alloc: Global,
    block: &Lines,
    origin: Origin,
) -> Result<Vec<AsmError>, AllocError>
    ensures { IfOk result (λ errors. errors.items ≡ block_errors (block_lines block.now.left) origin) }
{
    let address = origin.address();
    let mut errors = Vec::new(alloc);
    for _count in 0..MOST_FOUND {
        match next_error(alloc, errors.as_slice(), block, address)? {
            Some(error) => errors.push(error)?,
            None => return Ok(errors),
        }
    }
    Ok(errors)
}

/// The errors of a block are those of their lines, and all of them where there are no more than 20.
pub fn block_errors_are_their_lines()
    ensures { BlockErrorsAreTheirLines }
{}

// The first error, without what those are about that were found before.
fn next_error(
    alloc: Global,
    found: &[AsmError],
    block: &Lines,
    origin: u32,
) -> Result<Option<AsmError>, AllocError>
    requires { origin < 2 ^ 26 }
    ensures { IfOk result (λ error. error ≡ next_error found.now (block_lines block.now.left) origin) }
{
    let source = source_without(alloc, found, block)?;
    match assemble(alloc, source.as_slice(), origin) {
        Ok(_) => Ok(None),
        Err(error) if error.line == 0 => Err(AllocError),
        Err(error) => Ok(Some(error)),
    }
}

// The lines up to a block's end, without what errors are about.
fn source_without(alloc: Global, errors: &[AsmError], block: &Lines) -> Result<Vec<u8>, AllocError>
    ensures { IfOk result (λ source. source.items
        ≡ source_without errors.now 1 (block_lines block.now.left)) }
{
    let mut source = Vec::new(alloc);
    let mut lines = block.again();
    let before = lines.number();
    while let Some(line) = lines.next_line() {
        if is_block_end(line) {
            return Ok(source);
        }
        source.extend_from_slice(line_without(errors, lines.number() - before, line))?;
        source.extend_from_slice(b"\r\n")?;
    }
    Ok(source)
}

// A line of that number, without what errors are about.
#[tactic(auto, using(crate::proofs::BlockErrorLemmas::line_next))]
fn line_without<'a>(errors: &[AsmError], number: usize, line: &'a [u8]) -> &'a [u8]
    ensures { result.now ≡ line_without errors.now number line.now }
{
    let mut left = line;
    for error in errors {
        if error.line == number {
            left = part_kept(error.reason, left);
        }
    }
    left
}

// What is left of a line that an error is about.
fn part_kept(reason: Reason, line: &[u8]) -> &[u8]
    ensures { result.now ≡ part_kept reason line.now }
{
    if let Reason::LabelTwice = reason {
        return &[];
    }
    let label = word(line);
    if is_label(label) { label } else { &[] }
}
