//! The columns of a trace.

ghost use Rattle.std.specs.Prelude.{◌≡◌, ◌<◌, [], IfOk, take};
ghost use Rattle.profile.specs.Digits.{hex_digit_at, hex_word};
ghost use Rattle.profile.specs.Output.{Writes};
ghost use Rattle.profile.specs.text_sink.TextSink.{sink_text_of};
ghost use Rattle.trace_effects.specs.Columns.{below_text, columns_text, words_behind};

use profile::text_sink::TextSink;
use profile::{Sink, WriteFault, push_all, push_parts};
use std::alloc::Global;
use std::mem;

/// How many columns an instruction's text has, without the space of what follows on it.
const TEXT_COLUMNS: usize = 25;

/// How many columns stand before a line below a step, without the space of its first word.
const BELOW_COLUMNS: usize = 17;

/// How many bytes most lines have room in.
const LINE_BYTES: usize = 80;

const DIGITS: &[u8; 16] = b"0123456789ABCDEF";

const BLANKS: &[u8; TEXT_COLUMNS] = b"                         ";

/// A sink that has taken nothing, with room for most lines.
///
/// # Errors
///
/// Where memory ran out.
pub fn line_sink(alloc: Global) -> Result<TextSink, WriteFault>
    ensures { IfOk result (λ sink. sink_text_of sink ≡ []) }
{
    match Vec::with_capacity(alloc, LINE_BYTES) {
        Ok(room) => Ok(TextSink::over(room)),
        Err(_) => Err(WriteFault),
    }
}

/// Host memory for the texts of a line, which later lines use again.
#[derive(Drop)]
pub struct LineRooms {
    pub alloc: Global,
    pub text: Vec<u8>,
    pub words: Vec<u8>,
}

impl LineRooms {
    /// None so far.
    pub fn new(alloc: Global) -> LineRooms {
        LineRooms {
            alloc,
            text: Vec::new(alloc),
            words: Vec::new(alloc),
        }
    }

    /// A sink that has taken nothing, over the memory for the text.
    pub fn take_text(&mut self) -> TextSink
        ensures { sink_text_of result ≡ [] }
    {
        TextSink::over(mem::replace(&mut self.text, Vec::new(self.alloc)))
    }

    /// The same over that for the words behind it.
    pub fn take_words(&mut self) -> TextSink
        ensures { sink_text_of result ≡ [] }
    {
        TextSink::over(mem::replace(&mut self.words, Vec::new(self.alloc)))
    }
}

/// Writes all eight digits of a word, which stand in a table: lines have four words or more.
#[tactic(auto, unfolding(profile::specs::Digits::hex_word))]
pub fn push_word<W: Sink>(sink: &mut W, word: u32) -> Result<(), WriteFault>
    ensures writes { Writes W.contents W.has_failed sink.old sink.new result (hex_word word) }
{
    let digits = [
        digit_from(word, 28),
        digit_from(word, 24),
        digit_from(word, 20),
        digit_from(word, 16),
        digit_from(word, 12),
        digit_from(word, 8),
        digit_from(word, 4),
        digit_from(word, 0),
    ];
    push_all(sink, &digits)
}

// The digit of four bits from one on.
#[inline(always)]
fn digit_from(word: u32, low: u32) -> u8
    requires { low < 32 }
    ensures { result ≡ hex_digit_at word low }
{
    DIGITS[((word >> low) & 15) as usize]
}

/// Writes a line: what stands in columns 1 to 18, a text, and words, which begin at column 45 where
/// the text leaves them room. Each word has a space before it.
pub fn push_line<W: Sink>(
    sink: &mut W,
    front: &[u8],
    text: &[u8],
    words: &[u8],
) -> Result<(), WriteFault>
    ensures writes { Writes W.contents W.has_failed sink.old sink.new result
        (columns_text front.now text.now words.now) }
{
    push_parts(sink, &[front, text])?;
    push_behind(sink, text.len(), words)?;
    push_all(sink, b"\n")
}

/// Writes words behind a text of a length, so that they begin at column 45 where it leaves them room.
#[tactic(auto, unfolding(crate::specs::Columns::words_behind))]
pub fn push_behind<W: Sink>(sink: &mut W, len: usize, words: &[u8]) -> Result<(), WriteFault>
    ensures writes { Writes W.contents W.has_failed sink.old sink.new result
        (words_behind len words.now) }
{
    if words.is_empty() {
        return Ok(());
    }
    let missing = TEXT_COLUMNS.saturating_sub(len);
    push_parts(sink, &[&BLANKS[..missing], words])
}

/// Writes a line below a step, where there are words for it. Each has a space before it.
#[tactic(auto, unfolding(crate::specs::Columns::below_text))]
pub fn push_below<W: Sink>(sink: &mut W, words: &[u8]) -> Result<(), WriteFault>
    ensures writes { Writes W.contents W.has_failed sink.old sink.new result (below_text words.now) }
{
    if words.is_empty() {
        return Ok(());
    }
    push_parts(sink, &[&BLANKS[..BELOW_COLUMNS], words, b"\n".as_slice()])
}
