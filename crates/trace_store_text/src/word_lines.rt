//! The words that differ, a line for each.

ghost use Rattle.std.specs.Prelude.{◌≡◌};
ghost use Rattle.std.specs.List.{flat_map};
ghost use Rattle.profile.specs.Output.{Writes};
ghost use Rattle.trace_store_text.specs.WordLines.{more_line, summary_lines, word_line};

use itoa::Buffer;
use profile::{HexText, Sink, WriteFault, push_parts};
use store_copies::{WordChange, WordChanges};

/// How many words are shown.
const MOST_WORDS: u32 = 16;

/// Writes a line for each of the words that are kept, and how many there are more.
pub fn push_words<W: Sink>(sink: &mut W, changes: &WordChanges) -> Result<(), WriteFault>
    ensures writes { Writes W.contents W.has_failed sink.old sink.new result (summary_lines changes.now) }
{
    push_changes(sink, changes.first.as_slice())?;
    push_more(
        sink,
        changes.count.saturating_sub(MOST_WORDS),
        b" words more\n",
    )
}

fn push_changes<W: Sink>(sink: &mut W, changes: &[WordChange]) -> Result<(), WriteFault>
    ensures { Writes W.contents W.has_failed sink.old sink.new result (flat_map word_line changes.now) }
{
    for change in changes {
        push_change(sink, change)?;
    }
    Ok(())
}

#[tactic(auto, unfolding(crate::specs::WordLines::word_line))]
fn push_change<W: Sink>(sink: &mut W, change: &WordChange) -> Result<(), WriteFault>
    ensures { Writes W.contents W.has_failed sink.old sink.new result (word_line change.now) }
{
    push_parts(
        sink,
        &[
            b"                  [".as_slice(),
            HexText::word(change.at).as_slice(),
            b"]=".as_slice(),
            HexText::word(change.new).as_slice(),
            b" was ".as_slice(),
            HexText::word(change.old).as_slice(),
            b"\n".as_slice(),
        ],
    )
}

/// Writes how many more there are of what isn't shown, if there are any.
#[tactic(auto, unfolding(crate::specs::WordLines::more_line, crate::specs::WordLines::count_line))]
pub fn push_more<W: Sink>(sink: &mut W, more: u32, what: &[u8]) -> Result<(), WriteFault>
    ensures { Writes W.contents W.has_failed sink.old sink.new result (more_line what.now more) }
{
    if more == 0 {
        return Ok(());
    }
    let mut digits = Buffer::new();
    push_parts(
        sink,
        &[
            b"                  .. ".as_slice(),
            digits.format(more).as_bytes(),
            what,
        ],
    )
}
