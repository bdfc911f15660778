//! The text of a transcript: the lines that are typed, and the answers below them, so that a program
//! can run it again and compare. Unprintable bytes stand as `\x1B`.

ghost use Rattle.std.specs.Prelude.{◌≡◌, ◌<◌, true};
ghost use Rattle.profile.specs.Digits.{hex_digit};
ghost use Rattle.profile.specs.Output.{Writes};
ghost use Rattle.debug_program.specs.Spelling.{sign_of, spelt_from, spelt_in};

use profile::{Sink, WriteFault, push_all};

/// What a text of a transcript is.
#[derive(Clone, Copy)]
pub enum Side {
    /// Lines that are typed.
    Typed,
    /// Lines of an answer.
    Reported,
}

/// Writes a text: the sign of its side before each line, and after the last `\` where it has no end.
#[tactic(auto, using(crate::proofs::SpellingLemmas::side_steps))]
pub fn push_side<W: Sink>(sink: &mut W, side: Side, text: &[u8]) -> Result<(), WriteFault>
    ensures { Writes W.contents W.has_failed sink.old sink.new result (spelt_from side true text.now) }
{
    let mut is_first = true;
    for byte in text {
        push_byte(sink, side, is_first, *byte)?;
        is_first = *byte == b'\n';
    }
    if is_first {
        return Ok(());
    }
    push_all(sink, b"\\\n")
}

// Writes a byte behind its sign as a transcript spells it: `\\`, `\r`, `\t`, and `\x1B` for an
// unprintable byte. A line feed stays.
fn push_byte<W: Sink>(sink: &mut W, side: Side, is_first: bool, byte: u8) -> Result<(), WriteFault>
    ensures { Writes W.contents W.has_failed sink.old sink.new result (spelt_in side is_first byte) }
{
    push_all(sink, sign_of(side, is_first, byte))?;
    match byte {
        b'\\' => push_all(sink, b"\\\\"),
        b'\r' => push_all(sink, b"\\r"),
        b'\t' => push_all(sink, b"\\t"),
        b'\n' | b' '..=b'~' => push_all(sink, &[byte]),
        _ => push_all(sink, &[b'\\', b'x', digit(byte / 16), digit(byte % 16)]),
    }
}

// What stands before a byte: where it is the first of its line, `> ` or `>` of what is typed, and
// `\` of an answer whose sign would have a meaning in a transcript.
fn sign_of(side: Side, is_first: bool, byte: u8) -> &'static [u8]
    ensures { result.now ≡ sign_of side is_first byte }
{
    match (side, is_first, byte) {
        (_, false, _) => b"",
        (Side::Typed, true, b'\n') => b">",
        (Side::Typed, true, _) => b"> ",
        (Side::Reported, true, b'#' | b'$' | b'>' | b'=' | b'!') => b"\\",
        (Side::Reported, true, _) => b"",
    }
}

// The digit of a number below 16, in hexadecimal, in capitals.
fn digit(value: u8) -> u8
    requires { value < 16 }
    ensures { result ≡ hex_digit value }
{
    if value < 10 { value + b'0' } else { value + 55 }
}
