//! A step of a trace that a stub answers.

ghost use Rattle.std.specs.Prelude.{◌≡◌, ◌++◌, IfOk, OnOk};
ghost use Rattle.std.specs.Io.KnownBytes.{Appends};
ghost use Rattle.trace_text.specs.Columns.{columns_text};
ghost use Rattle.trace_text.specs.Instruction.{front_text, what_text};
ghost use Rattle.trace_text.specs.Stored.{stored_here};
ghost use Rattle.debug_runs.specs.TraceWriter.{stub_line, stub_words};
ghost use Rattle.profile.specs.text_sink.TextSink.{sink_text_of};
ghost use Rattle.debug_tables.specs.GuestState.{state_of};

use arm_core::Cpu;
use debug_tables::Machine;
use profile::text_sink::TextSink;
use profile::{Sink, WriteFault, push_all};
use std::alloc::Global;
use trace_text::core_text::push_core;
use trace_text::instruction::{push_front, text_of};
use trace_text::{Cause, following_word, push_line, push_stored_below, push_stored_here};

/// Writes the line of a step in whose place a stub did something, by the core before it and the machine
/// after it, what stood at the program counter, and what stood in the words that were stored.
pub(crate) fn push_stub_line<W: Sink>(
    alloc: Global,
    before: &Cpu,
    cause: Cause,
    after: &Machine,
    at: u32,
    old: &[u32],
    sink: &mut W,
) -> Result<(), WriteFault>
    ensures { OnOk result (Appends (W.contents sink.old) (W.contents sink.new)
        (stub_line before.now cause (state_of after.now.guest).cpu (state_of after.now.guest).store.bytes at
        old.now)) }
{
    let words = stub_words(alloc, before, after, at, old)?;
    push_columns(alloc, before.pc(), cause, words.bytes(), sink)?;
    push_stored_below(sink, after.memory(), at, old)
}

// The columns of such a line, of which these are the last.
fn push_columns<W: Sink>(
    alloc: Global,
    pc: u32,
    cause: Cause,
    words: &[u8],
    sink: &mut W,
) -> Result<(), WriteFault>
    ensures { OnOk result (Appends (W.contents sink.old) (W.contents sink.new)
        (columns_text (front_text pc cause) (what_text pc cause) words.now)) }
{
    let mut front = TextSink::new(alloc);
    push_front(&mut front, pc, cause)?;
    let text = text_of(alloc, pc, cause)?;
    push_line(sink, front.bytes(), text.bytes(), words)
}

fn stub_words(
    alloc: Global,
    before: &Cpu,
    after: &Machine,
    at: u32,
    old: &[u32],
) -> Result<TextSink, WriteFault>
    ensures { IfOk result (λ words. sink_text_of words
        ≡ stub_words before.now (state_of after.now.guest).cpu
        ++ stored_here (state_of after.now.guest).store.bytes at old.now) }
{
    let mut words = TextSink::new(alloc);
    push_all(&mut words, b" stub")?;
    push_core(&mut words, following_word(before), before, after.cpu())?;
    push_stored_here(&mut words, after.memory(), at, old)?;
    Ok(words)
}
