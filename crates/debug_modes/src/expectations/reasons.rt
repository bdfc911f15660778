//! What is so in place of what should be so, as text.

ghost use Rattle.profile.specs.Output.{Writes};
ghost use Rattle.debug_modes.specs.expectations.Checks.{output_reason, place_reason, register_name, status_reason, steps_reason, value_reason};
ghost use Rattle.debug_modes.specs.expectations.Reasons.{reason_text};
ghost use Rattle.debug_labels.specs.Banks.{banked_name};

use crate::expectations::checks::Mismatch;
use arm_core::{Mode, Psr};
use debug_labels::{hex_byte, push_banked_name, push_flags, push_quoted};
use itoa::Buffer;
use profile::{HexText, Sink, WriteFault, push_all, push_parts};

/// Writes what is so, without a line end: `R0 is 00000004`.
pub fn push_reason<W: Sink>(sink: &mut W, reason: &Mismatch<'_>) -> Result<(), WriteFault>
    ensures { Writes W.contents W.has_failed sink.old sink.new result (reason_text reason.now) }
{
    match *reason {
        Mismatch::Register(number, value) => push_register(sink, number, value),
        Mismatch::Pc(value) => push_value(sink, b"PC", value),
        Mismatch::Banked(mode, number, value) => push_banked(sink, mode, number, value),
        Mismatch::Status(status) => push_status_answer(sink, status),
        Mismatch::Word(address, Some(word)) => {
            push_place(sink, address, HexText::word(word).as_slice())
        }
        Mismatch::Byte(address, Some(byte)) => push_place(sink, address, &hex_byte(byte)),
        Mismatch::Word(address, None) | Mismatch::Byte(address, None) => {
            push_place(sink, address, b"unmapped")
        }
        Mismatch::Answer(line) => push_parts(sink, &[b"the answer is ".as_slice(), line]),
        Mismatch::NoLine => push_all(sink, b"the answer has no such line"),
        Mismatch::Output(bytes) => push_output(sink, bytes),
        Mismatch::Steps(count) => push_steps(sink, count),
    }
}

fn push_value<W: Sink>(sink: &mut W, name: &[u8], value: u32) -> Result<(), WriteFault>
    ensures { Writes W.contents W.has_failed sink.old sink.new result (value_reason name.now value) }
{
    push_parts(
        sink,
        &[name, b" is ".as_slice(), HexText::word(value).as_slice()],
    )
}

fn push_register<W: Sink>(sink: &mut W, number: u32, value: u32) -> Result<(), WriteFault>
    ensures { Writes W.contents W.has_failed sink.old sink.new result
        (value_reason (register_name number) value) }
{
    let mut digits = Buffer::new();
    push_parts(
        sink,
        &[
            b"R".as_slice(),
            digits.format(number).as_bytes(),
            b" is ".as_slice(),
            HexText::word(value).as_slice(),
        ],
    )
}

fn push_banked<W: Sink>(sink: &mut W, mode: Mode, number: u32, value: u32) -> Result<(), WriteFault>
    ensures { Writes W.contents W.has_failed sink.old sink.new result
        (value_reason (banked_name mode number) value) }
{
    push_banked_name(sink, mode, number)?;
    push_parts(sink, &[b" is ".as_slice(), HexText::word(value).as_slice()])
}

fn push_place<W: Sink>(sink: &mut W, address: u32, value: &[u8]) -> Result<(), WriteFault>
    ensures { Writes W.contents W.has_failed sink.old sink.new result (place_reason address value.now) }
{
    push_parts(
        sink,
        &[
            b"[".as_slice(),
            HexText::word(address).as_slice(),
            b"] is ".as_slice(),
            value,
        ],
    )
}

fn push_steps<W: Sink>(sink: &mut W, count: u64) -> Result<(), WriteFault>
    ensures { Writes W.contents W.has_failed sink.old sink.new result (steps_reason count) }
{
    let mut digits = Buffer::new();
    push_parts(
        sink,
        &[
            digits.format(count).as_bytes(),
            b" steps were taken".as_slice(),
        ],
    )
}

fn push_status_answer<W: Sink>(sink: &mut W, status: Psr) -> Result<(), WriteFault>
    ensures { Writes W.contents W.has_failed sink.old sink.new result (status_reason status) }
{
    push_all(sink, b"PSR is ")?;
    push_flags(sink, status)
}

fn push_output<W: Sink>(sink: &mut W, bytes: &[u8]) -> Result<(), WriteFault>
    ensures { Writes W.contents W.has_failed sink.old sink.new result (output_reason bytes.now) }
{
    push_all(sink, b"the output is ")?;
    push_quoted(sink, bytes)
}
