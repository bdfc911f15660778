//! A script read whole, up to the longest that is taken.

ghost use Rattle.std.specs.Prelude.{◌≡◌, ◌≤◌, ◌<◌, true, length, IfOk, IfSome};
ghost use Rattle.assembler_text.specs.Pulls.{PullsAtMost};

use crate::error::ReadingError;
use assembler_text::{MOST_BYTES, Source};
use std::alloc::Global;

const CHUNK: usize = 4096;

/// Reads a script to its end, in at most 1,048,577 pulls: each but the last gives a byte at least,
/// and that many bytes are too many.
///
/// # Errors
///
/// `Memory`, `ReadFault`, and `ScriptTooLong` past 1,048,576 bytes.
pub fn read_script<R: Source>(alloc: Global, reader: &mut R) -> Result<Vec<u8>, ReadingError>
    ensures bytes { IfOk result (λ script. IfSome (R.remaining reader.old)
        (λ reported. script.items ≡ reported)) }
    ensures in_limit { IfOk result (λ script. length script.items ≤ 1048576) }
    ensures reported { R.has_failed reader.new ≡ true → result ≡ Err ReadingError.ReadFault }
    ensures read_fault { result ≡ Err ReadingError.ReadFault → R.has_failed reader.new ≡ true }
    ensures too_long { result ≡ Err ReadingError.ScriptTooLong
        → IfSome (R.remaining reader.old) (λ reported. 1048576 < length reported) }
    ensures pulls { PullsAtMost (R.pulls reader.old) (R.pulls reader.new) 1048577 }
{
    let mut script = Vec::new(alloc);
    let mut chunk = [0u8; CHUNK];
    for _pulls in 0..MOST_BYTES + 1 {
        let count = reader.pull(&mut chunk)?;
        if count == 0 {
            return Ok(script);
        }
        script.extend_from_slice(&chunk[..count])?;
        if script.len() > MOST_BYTES {
            return Err(ReadingError::ScriptTooLong);
        }
    }
    Err(ReadingError::ScriptTooLong)
}
