//! How much of a text are requests of a debugging script that are whole, for lines that come bit by
//! bit.

ghost use Rattle.std.specs.Prelude.{◌≡◌, false, IfOk};
ghost use Rattle.debug_lines.specs.BlockEnds.{missing_ends_if};
ghost use Rattle.debug_lines.specs.WholeDebugRequests.{AreWholeDebugRequests};

use crate::block_ends::BlockReading;
use profile::text_lines::cut_line;
use std::alloc::{AllocError, Global};

/// What the lines of a text that have their end show of its requests.
#[derive(Drop)]
pub struct RequestReading {
    /// How many bytes at its front are requests that are whole.
    pub whole: usize,
    /// The lines at which blocks begin that lack their END.
    pub missing_ends: Vec<usize>,
}

/// Reads the lines of a text, before which so many lines stood: how many bytes at its front are
/// requests that are whole, a line with its end, and where that opens a block its block up to and with
/// the line END; and which blocks turn out to lack their END.
///
/// # Errors
///
/// `AllocError` where the host has no memory for a line made tidy.
pub fn read_requests(
    alloc: Global,
    text: &[u8],
    number: usize,
) -> Result<RequestReading, AllocError>
    ensures whole { IfOk result (λ read. AreWholeDebugRequests text.now read.whole) }
    ensures missing { IfOk result (λ read. read.missing_ends.items
        ≡ missing_ends_if false number text.now) }
{
    let mut reading = BlockReading::from_line(alloc, number);
    let mut rest = text;
    let mut whole = 0;
    while let Some((line, after)) = cut_line(rest) {
        reading.read_line(alloc, line)?;
        rest = after;
        if !reading.is_in_block() {
            whole = text.len() - rest.len();
        }
    }
    Ok(RequestReading {
        whole,
        missing_ends: reading.begins,
    })
}
