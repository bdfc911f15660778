//! Text between double quotes, and the bytes that it stands for.

ghost use Rattle.std.specs.Prelude.{◌≡◌, is_some, IfOk};
ghost use Rattle.command_shell_lines.specs.debug_words.Spelling.{escape_value, giving, escape_step, can_text_end, spelt_bytes, is_spelling_of};
ghost use Rattle.command_shell_lines.specs.HexPairs.{pair_value};
ghost use Rattle.command_shell_lines.specs.debug_words.NamedBytes.{or_no_bytes};

use crate::hex_pair;
use std::alloc::{AllocError, Global};

/// Where the reading of a text between quotes stands.
#[derive(Clone, Copy)]
pub enum EscapeState {
    /// Behind a byte that is whole.
    Plain,
    /// Behind a backslash.
    Backslash,
    /// Behind a backslash and `x`.
    HexHigh,
    /// Behind a backslash, `x` and a digit.
    HexLow(u8),
}

/// What a byte of such a text does.
#[derive(Clone, Copy)]
pub enum EscapeStep {
    /// It can't stand there.
    Bad,
    /// The reading goes on.
    To(EscapeState),
    /// A byte is whole.
    Gives(u8),
}

impl EscapeState {
    fn step(self, byte: u8) -> EscapeStep
        ensures { result ≡ escape_step self byte }
    {
        match self {
            EscapeState::Plain => match byte {
                b'\\' => EscapeStep::To(EscapeState::Backslash),
                b'"' => EscapeStep::Bad,
                _ => EscapeStep::Gives(byte),
            },
            EscapeState::Backslash if byte == b'x' => EscapeStep::To(EscapeState::HexHigh),
            EscapeState::Backslash => giving(escape_value(byte)),
            EscapeState::HexHigh => EscapeStep::To(EscapeState::HexLow(byte)),
            EscapeState::HexLow(high) => giving(hex_pair(high, byte)),
        }
    }

    fn can_text_end(self) -> bool
        ensures { result ≡ can_text_end self }
    {
        matches!(self, EscapeState::Plain)
    }
}

fn giving(byte: Option<u8>) -> EscapeStep
    ensures { result ≡ giving byte }
{
    match byte {
        Some(byte) => EscapeStep::Gives(byte),
        None => EscapeStep::Bad,
    }
}

// The byte that a letter behind a backslash stands for.
fn escape_value(letter: u8) -> Option<u8>
    ensures { result ≡ escape_value letter }
{
    match letter {
        b'n' => Some(b'\n'),
        b'r' => Some(b'\r'),
        b't' => Some(b'\t'),
        b'"' | b'\\' => Some(letter),
        _ => None,
    }
}

/// Whether a text between quotes stands for some bytes: `\n`, `\r`, `\t`, `\"`, `\\` and `\xHH` for
/// one byte each, every other byte but `"` for itself. A text that isn't well spelt stands for none.
pub fn is_spelt(raw: &[u8], bytes: &[u8]) -> bool
    ensures { result ≡ is_spelling_of raw.now bytes.now }
{
    let mut state = EscapeState::Plain;
    let mut rest = bytes;
    for byte in raw {
        match state.step(*byte) {
            EscapeStep::Bad => return false,
            EscapeStep::To(next) => state = next,
            EscapeStep::Gives(given) => {
                let Some((first, others)) = rest.split_first() else {
                    return false;
                };
                if *first != given {
                    return false;
                }
                rest = others;
                state = EscapeState::Plain;
            }
        }
    }
    state.can_text_end() && rest.is_empty()
}

/// Whether a text between quotes is well spelt.
pub fn is_well_spelt(raw: &[u8]) -> bool
    ensures { result ≡ is_some (spelt_bytes raw.now) }
{
    let mut state = EscapeState::Plain;
    for byte in raw {
        match state.step(*byte) {
            EscapeStep::Bad => return false,
            EscapeStep::To(next) => state = next,
            EscapeStep::Gives(_) => state = EscapeState::Plain,
        }
    }
    state.can_text_end()
}

/// The bytes that a text between quotes stands for, none where it isn't well spelt.
pub(crate) fn spelt_bytes(alloc: Global, raw: &[u8]) -> Result<Vec<u8>, AllocError>
    ensures { IfOk result (λ bytes. bytes.items ≡ or_no_bytes (spelt_bytes raw.now)) }
{
    let mut bytes = Vec::new(alloc);
    let mut state = EscapeState::Plain;
    for byte in raw {
        match state.step(*byte) {
            EscapeStep::Bad => return Ok(Vec::new(alloc)),
            EscapeStep::To(next) => state = next,
            EscapeStep::Gives(given) => {
                bytes.push(given)?;
                state = EscapeState::Plain;
            }
        }
    }
    if state.can_text_end() {
        Ok(bytes)
    } else {
        Ok(Vec::new(alloc))
    }
}
