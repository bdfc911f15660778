//! Which lines of a debugging script open a block. Most that open none are shown by one byte: a word
//! that opens one is named here by its first letter, too.

ghost use Rattle.std.specs.Prelude.{◌≡◌, IfOk};
ghost use Rattle.debug_lines.specs.DebugRequests.{debug_request, debug_opens_block};
ghost use Rattle.debug_lines.specs.Openers.{is_opener_letter, may_open_block};

use crate::repeats::repeated_line;
use crate::requests::is_script_command;
use crate::tidy::{is_blank, tidied};
use crate::tracing::simple_command;
use command_shell_lines::command_of;
use std::alloc::{AllocError, Global};

/// Whether a line opens a block.
///
/// # Errors
///
/// `AllocError` where the host has no memory for the line made tidy.
pub fn opens_block(alloc: Global, line: &[u8]) -> Result<bool, AllocError>
    ensures { IfOk result (λ opens. opens ≡ debug_opens_block (debug_request line.now)) }
{
    if !may_open_block(line) {
        return Ok(false);
    }
    let command = command_of(line);
    if is_script_command(&command) {
        return Ok(command.opens_block());
    }
    let tidy = tidied(alloc, line)?;
    match repeated_line(&tidy) {
        Some(_) => Ok(false),
        None => Ok(simple_command(&tidy).opens_block()),
    }
}

// Whether a line may open a block, by its first byte that is no blank.
fn may_open_block(line: &[u8]) -> bool
    ensures { result ≡ may_open_block line.now }
{
    for byte in line {
        if !is_blank(*byte) {
            return is_opener_letter(*byte);
        }
    }
    false
}

// Whether HEX or ASM begins with a letter.
fn is_opener_letter(byte: u8) -> bool
    ensures { result ≡ is_opener_letter byte }
{
    (byte == b'H' || byte == b'h') || (byte == b'A' || byte == b'a')
}
