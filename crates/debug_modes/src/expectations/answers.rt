//! The lines of an answer, beside those that a script expects.

ghost use Rattle.std.specs.Prelude.{◌≡◌, IfOk};
ghost use Rattle.std.specs.List.{list_any};
ghost use Rattle.std.specs.Str.{bytes_eq};
ghost use Rattle.std.specs.Str.Lines.{lines};
ghost use Rattle.debug_modes.specs.expectations.Checks.{error_answer, is_line_of_words, last_line};

use debug_lines::tidied;
use itoa::Buffer;
use profile::text_lines::Lines;
use std::alloc::{AllocError, Global};

/// The last line of an answer; an empty one where it has none.
#[tactic(auto, using(crate::proofs::ExpectationsLemmas::LineLemmas::line_steps))]
pub fn last_line(answer: &[u8]) -> &[u8]
    ensures { result.now ≡ last_line answer.now }
{
    let mut last: &[u8] = &[];
    let mut lines = Lines::new(answer);
    while let Some(line) = lines.next_line() {
        last = line;
    }
    last
}

/// Whether a line is a text, where blanks count as one space.
///
/// # Errors
///
/// Memory ran out.
pub fn is_line_of_words(alloc: Global, text: &[u8], line: &[u8]) -> Result<bool, AllocError>
    ensures { IfOk result (λ is. is ≡ is_line_of_words text.now line.now) }
{
    let tidy = tidied(alloc, line)?;
    Ok(tidy.as_slice() == text)
}

/// Whether one of an answer's lines is a text, where blanks count as one space.
///
/// # Errors
///
/// Memory ran out.
#[tactic(auto, using(crate::proofs::ExpectationsLemmas::LineLemmas::line_steps))]
pub fn has_line_of_words(alloc: Global, text: &[u8], answer: &[u8]) -> Result<bool, AllocError>
    ensures { IfOk result (λ has. has ≡ list_any (is_line_of_words text.now) (lines answer.now)) }
{
    let mut lines = Lines::new(answer);
    while let Some(line) = lines.next_line() {
        if is_line_of_words(alloc, text, line)? {
            return Ok(true);
        }
    }
    Ok(false)
}

/// Whether a line says that a store call was refused with that error.
pub fn is_error_answer(number: u32, line: &[u8]) -> bool
    ensures { result ≡ bytes_eq line.now (error_answer number) }
{
    let mut digits = Buffer::new();
    match line.strip_prefix(b"error ".as_slice()) {
        Some(rest) => rest == digits.format(number).as_bytes(),
        None => false,
    }
}
