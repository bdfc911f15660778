//! Lines below a step: what was printed, and the frames that were left and entered.

ghost use Rattle.std.specs.Prelude.{◌≡◌, OnOk};
ghost use Rattle.std.specs.Io.KnownBytes.{Appends};
ghost use Rattle.profile.specs.Output.{Writes};
ghost use Rattle.trace_store_text.specs.GuestState.{state_of};
ghost use Rattle.trace_effects.specs.Columns.{below_text};
ghost use Rattle.trace_store_text.specs.FrameWords.{entered_word};
ghost use Rattle.trace_text.specs.Below.{left_word_kept, prints_word};
ghost use Rattle.trace_text.specs.Start.{store_kept};

use profile::text_sink::TextSink;
use profile::{Sink, WriteFault, push_all};
use std::alloc::Global;
use trace_effects::columns::push_below;
use trace_store_text::frame_words::{push_entered, push_left};
use trace_store_text::{Frame, Machine, StoreCopy, push_quoted};

/// Writes a line of what was printed, where something was.
///
/// # Errors
///
/// Where the sink failed, or memory ran out.
pub fn push_prints_line<W: Sink>(
    alloc: Global,
    printed: &[u8],
    sink: &mut W,
) -> Result<(), WriteFault>
    ensures text { OnOk result (Appends (W.contents sink.old) (W.contents sink.new)
        (below_text (prints_word printed.now))) }
{
    let mut words = TextSink::new(alloc);
    push_prints(&mut words, printed)?;
    push_below(sink, words.bytes())
}

fn push_prints<W: Sink>(sink: &mut W, printed: &[u8]) -> Result<(), WriteFault>
    ensures { Writes W.contents W.has_failed sink.old sink.new result (prints_word printed.now) }
{
    if printed.is_empty() {
        return Ok(());
    }
    push_all(sink, b" prints ")?;
    push_quoted(sink, printed)
}

pub(crate) fn push_left_line<W: Sink>(
    alloc: Global,
    leaves: bool,
    count: usize,
    innermost: Option<Frame>,
    before: &Option<Box<StoreCopy>>,
    sink: &mut W,
) -> Result<(), WriteFault>
    ensures { OnOk result (Appends (W.contents sink.old) (W.contents sink.new)
        (below_text (left_word_kept leaves count innermost (store_kept before.now)))) }
{
    let mut words = TextSink::new(alloc);
    push_left_kept(&mut words, leaves, count, innermost, before)?;
    push_below(sink, words.bytes())
}

fn push_left_kept<W: Sink>(
    sink: &mut W,
    leaves: bool,
    count: usize,
    innermost: Option<Frame>,
    before: &Option<Box<StoreCopy>>,
) -> Result<(), WriteFault>
    ensures { Writes W.contents W.has_failed sink.old sink.new result
        (left_word_kept leaves count innermost (store_kept before.now)) }
{
    match before {
        Some(before) => push_left(sink, leaves, count, innermost, before.instances()),
        None => Ok(()),
    }
}

pub(crate) fn push_entered_line<W: Sink>(
    alloc: Global,
    kept: usize,
    machine: &Machine,
    sink: &mut W,
) -> Result<(), WriteFault>
    ensures { let s = state_of machine.now.guest in
        OnOk result (Appends (W.contents sink.old) (W.contents sink.new)
        (below_text (entered_word kept s.tables.frames s.tables.modules))) }
{
    let mut words = TextSink::new(alloc);
    push_entered(&mut words, kept, machine.open_frames(), machine.instances())?;
    push_below(sink, words.bytes())
}
