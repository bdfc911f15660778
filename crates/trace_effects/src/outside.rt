//! What a trace reports a call that is made from outside.

ghost use Rattle.std.specs.Prelude.{◌≡◌, IfOk};
ghost use Rattle.profile.specs.Output.{Writes};
ghost use Rattle.trace_effects.specs.Outside.{calling_text, loading_text, outside_line};
ghost use Rattle.profile.specs.text_sink.TextSink.{sink_text_of};

use crate::columns::push_line;
use profile::text_sink::TextSink;
use profile::{HexText, Sink, WriteFault, push_parts};
use std::alloc::Global;

/// Writes the line of what is done from outside.
pub fn push_outside<W: Sink>(sink: &mut W, text: &[u8], words: &[u8]) -> Result<(), WriteFault>
    ensures { Writes W.contents W.has_failed sink.old sink.new result
        (outside_line text.now words.now) }
{
    push_line(sink, b"-------- -------- ", text, words)
}

/// `CALL &1D`
pub fn calling_text(alloc: Global, number: u32) -> Result<TextSink, WriteFault>
    ensures { IfOk result (λ text. sink_text_of text ≡ calling_text number) }
{
    let mut text = TextSink::new(alloc);
    let digits = HexText::number(number);
    push_parts(&mut text, &[b"CALL &".as_slice(), digits.as_slice()])?;
    Ok(text)
}

/// `LOAD name text`
pub fn loading_text(alloc: Global, words: &[u8]) -> Result<TextSink, WriteFault>
    ensures { IfOk result (λ text. sink_text_of text ≡ loading_text words.now) }
{
    let mut text = TextSink::new(alloc);
    push_parts(&mut text, &[b"LOAD ".as_slice(), words])?;
    Ok(text)
}
