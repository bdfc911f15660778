//! A line made tidy: without its comment, its words parted by single spaces.

ghost use Rattle.std.specs.Prelude.{◌≡◌, ◌++◌, IfOk, OnOk};
ghost use Rattle.debug_lines.specs.Tidy.{is_blank, is_comment_start, tidy_bytes, state_in_word, tidy_state_after, tidied_line};

use std::alloc::{AllocError, Global};

/// Where the pass over a line's bytes stands.
#[derive(Clone, Copy)]
pub enum TidyState {
    /// Only blanks were read.
    AtStart,
    /// The last byte was a blank, and a word stands before it.
    AfterBlank,
    /// In a word, outside double quotes.
    InWord,
    /// Between double quotes.
    InQuotes,
    /// Between double quotes, behind a backslash that takes the next byte with it.
    AfterBackslash,
}

/// The line made tidy. A comment goes, `;` at the start or after a blank with all behind it; spaces
/// and tabs become one space between words, and none stands at either end. Between double quotes each
/// byte stands as it is.
///
/// # Errors
///
/// `AllocError` where the host has no memory for the line.
#[tactic(auto, unfolding(crate::specs::Tidy::tidied_line))]
pub fn tidied(alloc: Global, line: &[u8]) -> Result<Vec<u8>, AllocError>
    ensures { IfOk result (λ tidy. tidy.items ≡ tidied_line line.now) }
{
    let mut tidy = Vec::new(alloc);
    let mut state = TidyState::AtStart;
    for byte in line {
        if state.is_comment_start(*byte) {
            return Ok(tidy);
        }
        state.append_tidy(*byte, &mut tidy)?;
        state = state.after(*byte);
    }
    Ok(tidy)
}

impl TidyState {
    // Whether a byte begins a comment here.
    fn is_comment_start(self, byte: u8) -> bool
        ensures { result ≡ is_comment_start self byte }
    {
        match self {
            TidyState::AtStart | TidyState::AfterBlank => byte == b';',
            TidyState::InWord | TidyState::InQuotes | TidyState::AfterBackslash => false,
        }
    }

    // Appends what stands for a byte here.
    fn append_tidy(self, byte: u8, tidy: &mut Vec<u8>) -> Result<(), AllocError>
        ensures { OnOk result (tidy.new.items ≡ tidy.old.items ++ tidy_bytes self byte) }
    {
        match self {
            TidyState::InQuotes | TidyState::AfterBackslash => tidy.push(byte)?,
            _ if is_blank(byte) => {}
            TidyState::AfterBlank => tidy.extend_from_slice(&[b' ', byte])?,
            TidyState::AtStart | TidyState::InWord => tidy.push(byte)?,
        }
        Ok(())
    }

    // Where the pass stands after a byte.
    fn after(self, byte: u8) -> TidyState
        ensures { result ≡ tidy_state_after self byte }
    {
        match self {
            TidyState::InQuotes => match byte {
                b'"' => TidyState::InWord,
                b'\\' => TidyState::AfterBackslash,
                _ => TidyState::InQuotes,
            },
            TidyState::AfterBackslash => TidyState::InQuotes,
            TidyState::AtStart if is_blank(byte) => TidyState::AtStart,
            _ if is_blank(byte) => TidyState::AfterBlank,
            _ => in_word(byte),
        }
    }
}

fn in_word(byte: u8) -> TidyState
    ensures { result ≡ state_in_word byte }
{
    if byte == b'"' {
        TidyState::InQuotes
    } else {
        TidyState::InWord
    }
}

/// A space or a tab.
pub(crate) fn is_blank(byte: u8) -> bool
    ensures { result ≡ is_blank byte }
{
    byte == b' ' || byte == b'\t'
}
