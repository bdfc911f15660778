//! The errors of an ASM block as text.

ghost use Rattle.std.specs.Prelude.{◌≡◌, ◌++◌, IfOk, OnOk};
ghost use Rattle.std.specs.List.{flat_map};
ghost use Rattle.debug_listing.specs.BlockErrorTexts.{block_errors_text, error_text, error_text_if, errors_text, listed_errors_text, part_shown, asm_reason_text, text_with_errors};
ghost use Rattle.command_shell_lines.specs.Blocks.{block_lines};
ghost use Rattle.command_shell_lines.specs.Requests.{request_of_command};

use crate::block_errors::errors_of_block;
use assembler_text::naming::Reason;
use assembler_text::naming::words::{after_spaces, word};
use command_shell_lines::{ScriptCommand, is_block_end};
use debug_tables::AsmError;
use itoa::Buffer;
use profile::text_lines::Lines;
use std::alloc::{AllocError, Global};

const MOST_LISTED: usize = 20;

/// What a script answers to a line with a block, and behind it, where an ASM block is refused, the
/// errors of its lines.
///
/// # Errors
///
/// Memory ran out.
pub fn with_errors(
    alloc: Global,
    is_refused: bool,
    command: &ScriptCommand,
    block: &Lines,
    answer: &[u8],
) -> Result<Vec<u8>, AllocError>
    ensures { IfOk result (λ text. text.items ≡ text_with_errors is_refused block.now.number
        (request_of_command command.now) (block_lines block.now.left) answer.now) }
{
    let mut text = Vec::from_slice(alloc, answer)?;
    if is_refused {
        push_block_errors(alloc, &mut text, command, block)?;
    }
    Ok(text)
}

fn push_block_errors(
    alloc: Global,
    text: &mut Vec<u8>,
    command: &ScriptCommand,
    block: &Lines,
) -> Result<(), AllocError>
    ensures { OnOk result (text.new.items ≡ text.old.items ++ block_errors_text block.now.number
        (request_of_command command.now) (block_lines block.now.left)) }
{
    if let ScriptCommand::Asm(_, origin) = *command {
        let errors = errors_of_block(alloc, block, origin)?;
        return push_listed(text, errors.as_slice(), block);
    }
    Ok(())
}

// The first 20 of some errors, and whether there are more.
fn push_listed(text: &mut Vec<u8>, errors: &[AsmError], block: &Lines) -> Result<(), AllocError>
    ensures { OnOk result (text.new.items
        ≡ text.old.items ++ listed_errors_text errors.now block.now.number (block_lines block.now.left)) }
{
    push_errors(text, &errors[..errors.len().min(MOST_LISTED)], block)?;
    if errors.len() > MOST_LISTED {
        return text.extend_from_slice(b"further errors are not listed\n");
    }
    Ok(())
}

// Errors, line by line.
fn push_errors(text: &mut Vec<u8>, errors: &[AsmError], block: &Lines) -> Result<(), AllocError>
    ensures { OnOk result (text.new.items
        ≡ text.old.items ++ errors_text errors.now 0 block.now.number (block_lines block.now.left)) }
{
    let mut lines = block.again();
    let before = lines.number();
    while let Some(line) = lines.next_line() {
        if is_block_end(line) {
            return Ok(());
        }
        let number = lines.number();
        push_errors_of_line(text, errors, number - before, number, line)?;
    }
    Ok(())
}

// The errors of a line, by its number in the block and in the script.
#[tactic(auto, using(crate::proofs::BlockErrorLemmas::shown_next))]
fn push_errors_of_line(
    text: &mut Vec<u8>,
    errors: &[AsmError],
    in_block: usize,
    number: usize,
    line: &[u8],
) -> Result<(), AllocError>
    ensures { OnOk result (text.new.items
        ≡ text.old.items ++ flat_map (error_text_if in_block number line.now) errors.now) }
{
    for error in errors {
        push_error_if(text, *error, in_block, number, line)?;
    }
    Ok(())
}

fn push_error_if(
    text: &mut Vec<u8>,
    error: AsmError,
    in_block: usize,
    number: usize,
    line: &[u8],
) -> Result<(), AllocError>
    ensures { OnOk result (text.new.items ≡ text.old.items ++ error_text_if in_block number line.now error) }
{
    if error.line == in_block {
        return push_error(text, number, line, error.reason);
    }
    Ok(())
}

fn push_error(
    text: &mut Vec<u8>,
    number: usize,
    line: &[u8],
    reason: Reason,
) -> Result<(), AllocError>
    ensures { OnOk result (text.new.items ≡ text.old.items ++ error_text number line.now reason) }
{
    let mut digits = Buffer::new();
    text.extend_from_slice(b"line ")?;
    text.extend_from_slice(digits.format(number).as_bytes())?;
    text.extend_from_slice(b": ")?;
    text.extend_from_slice(part_shown(reason, line))?;
    text.extend_from_slice(b": ")?;
    text.extend_from_slice(asm_reason_text(reason))?;
    text.push(b'\n')?;
    Ok(())
}

// The label that an error is about, or else the line without the spaces before it.
fn part_shown(reason: Reason, line: &[u8]) -> &[u8]
    ensures { result.now ≡ part_shown reason line.now }
{
    match reason {
        Reason::LabelTwice => word(line),
        _ => after_spaces(line),
    }
}

fn asm_reason_text(reason: Reason) -> &'static [u8]
    ensures { result.now ≡ asm_reason_text reason }
{
    match reason {
        Reason::Syntax => b"no line of the assembler (Syntax)",
        Reason::LabelTwice => b"another line has the label (LabelTwice)",
        Reason::TooLong => b"the program passes 1,048,576 bytes or &4000000 (TooLong)",
        Reason::UnknownLabel => b"no line has the label, or no SWI the name (UnknownLabel)",
        Reason::BadImmediate => b"the number doesn't fit (BadImmediate)",
        Reason::OutOfReach => b"the address can't be reached from here (OutOfReach)",
        Reason::Forbidden => b"a fault when it runs (Forbidden)",
        Reason::Memory => b"no memory is left (Memory)",
    }
}
