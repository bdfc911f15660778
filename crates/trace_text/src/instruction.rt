//! The columns of an instruction: its address, its word and its text, with the names that a program's
//! text has.

ghost use Rattle.std.specs.Prelude.{◌≡◌, [], IfOk, option_map};
ghost use Rattle.profile.specs.Output.{Writes};
ghost use Rattle.profile.specs.SwiNames.{swi_of};
ghost use Rattle.profile.specs.text_sink.TextSink.{sink_text_of};
ghost use Rattle.trace_store_text.specs.Step.{without_x};
ghost use Rattle.trace_text.specs.Instruction.{branch_destination, front_text, named_text, swi_standing, destination_of_word, what_text, with_call, by_name, word_column};

use profile::text_lines::cut;
use profile::text_sink::TextSink;
use profile::word::is_bit_set;
use profile::{Sink, SwiName, WriteFault, push_all, push_parts};
use std::alloc::Global;
use trace_effects::Cause;
use trace_effects::columns::{LineRooms, line_sink, push_word};
use trace_store_text::{disassemble, without_x_bit};

/// Writes the columns before an instruction's text: the address and the word that stand there.
///
/// # Errors
///
/// Where the sink failed.
pub fn push_front<W: Sink>(sink: &mut W, pc: u32, cause: Cause) -> Result<(), WriteFault>
    ensures { Writes W.contents W.has_failed sink.old sink.new result (front_text pc cause) }
{
    push_word(sink, pc)?;
    push_all(sink, b" ")?;
    push_word_column(sink, cause)?;
    push_all(sink, b" ")
}

fn push_word_column<W: Sink>(sink: &mut W, cause: Cause) -> Result<(), WriteFault>
    ensures { Writes W.contents W.has_failed sink.old sink.new result (word_column cause) }
{
    match cause {
        Cause::Skipped(word) | Cause::Word(word) => push_word(sink, word),
        Cause::Gate | Cause::Unmapped => push_all(sink, b"--------"),
    }
}

/// The text of what stands at a program counter.
///
/// # Errors
///
/// Where memory ran out.
pub fn text_of(alloc: Global, pc: u32, cause: Cause) -> Result<TextSink, WriteFault>
    ensures { IfOk result (λ text. sink_text_of text ≡ what_text pc cause) }
{
    let mut text = line_sink(alloc)?;
    push_what(&mut text, pc, cause)?;
    Ok(text)
}

fn push_what<W: Sink>(sink: &mut W, pc: u32, cause: Cause) -> Result<(), WriteFault>
    ensures { Writes W.contents W.has_failed sink.old sink.new result (what_text pc cause) }
{
    match cause {
        Cause::Gate => push_all(sink, b"return gate"),
        Cause::Unmapped => push_all(sink, b"unmapped"),
        Cause::Skipped(word) | Cause::Word(word) => disassemble(word, pc, sink),
    }
}

/// The same text, with the name of a SWI that the machine has, or of the label to which a branch goes,
/// in place of the number.
///
/// # Errors
///
/// Where memory ran out.
pub(crate) fn named_text(
    rooms: &mut LineRooms,
    pc: u32,
    cause: Cause,
    label: Option<&[u8]>,
) -> Result<TextSink, WriteFault>
    ensures { IfOk result (λ text. sink_text_of text
        ≡ named_text pc cause (option_map (λ l. l.now) label.entry)) }
{
    let mut text = rooms.take_text();
    push_what(&mut text, pc, cause)?;
    match (swi_standing(cause), label) {
        (Some(number), _) => with_call(rooms, text, number),
        (None, Some(label)) => by_name(rooms, text, b"", label),
        (None, None) => Ok(text),
    }
}

fn with_call(rooms: &mut LineRooms, text: TextSink, number: u32) -> Result<TextSink, WriteFault>
    ensures { IfOk result (λ named. sink_text_of named
        ≡ with_call (sink_text_of text) number (swi_of (without_x number))) }
{
    match SwiName::of(without_x_bit(number)) {
        None => Ok(text),
        Some(call) => {
            let front = if is_bit_set(number, 17) {
                b"X".as_slice()
            } else {
                b"".as_slice()
            };
            by_name(rooms, text, front, call.name().as_bytes())
        }
    }
}

// An instruction's mnemonic, and another operand.
fn by_name(
    rooms: &mut LineRooms,
    text: TextSink,
    front: &[u8],
    name: &[u8],
) -> Result<TextSink, WriteFault>
    ensures { IfOk result (λ named. sink_text_of named ≡ by_name (sink_text_of text) front.now name.now) }
{
    let (word, _) = cut(text.bytes(), b' ');
    let mut named = rooms.take_words();
    push_parts(&mut named, &[word, b" ".as_slice(), front, name])?;
    rooms.words = text.into_bytes();
    Ok(named)
}

/// Where the branch goes that stands at a program counter, if one does, carried out or not.
pub fn branch_destination(pc: u32, cause: Cause) -> Option<u32>
    ensures { result ≡ branch_destination pc cause }
{
    match cause {
        Cause::Skipped(word) | Cause::Word(word) => destination_of_word(pc, word),
        Cause::Gate | Cause::Unmapped => None,
    }
}

fn destination_of_word(pc: u32, word: u32) -> Option<u32>
    ensures { result ≡ destination_of_word pc word }
{
    let target = pc.wrapping_add(8 + 4 * (word % (1 << 24))) % (1 << 26);
    (word >> 25 & 7 == 5).then_some(target)
}

// The number of the SWI that stands at a program counter, if one does.
fn swi_standing(cause: Cause) -> Option<u32>
    ensures { result ≡ swi_standing cause }
{
    match cause {
        Cause::Skipped(word) | Cause::Word(word) => {
            (word >> 24 & 15 == 15).then_some(word % (1 << 24))
        }
        Cause::Gate | Cause::Unmapped => None,
    }
}
