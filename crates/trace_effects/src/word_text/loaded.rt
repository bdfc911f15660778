//! The words that an instruction loaded.

ghost use Rattle.std.specs.Prelude.{◌≡◌};
ghost use Rattle.arm_step.specs.Memory.{bytes_of};
ghost use Rattle.profile.specs.Output.{Writes};
ghost use Rattle.trace_effects.specs.word_text.Loaded.{count_word, is_same_register, loaded_words_text, place_word, value_word};

use crate::StoredWords;
use crate::word_text::stored::word_or_zero;
use arm_core::Cpu;
use arm_step::AddressMap;
use itoa::Buffer;
use profile::{HexText, Sink, WriteFault, push_parts};

/// Writes where the words that an instruction loaded stand, for the line of the instruction: that of the
/// first, ` from [00009010]`, and of more than one how many. Where LDR leaves its register, `target`, as it
/// was, what stands in memory follows.
#[tactic(auto, unfolding(crate::specs::word_text::Loaded::loaded_words_text))]
pub fn push_loaded<W: Sink>(
    sink: &mut W,
    before: &Cpu,
    after: &Cpu,
    memory: &AddressMap,
    words: StoredWords,
    target: Option<u32>,
) -> Result<(), WriteFault>
    ensures writes { Writes W.contents W.has_failed sink.old sink.new result
        (loaded_words_text before.now after.now (bytes_of memory.now) words target) }
{
    if words.count == 0 {
        return Ok(());
    }
    push_place(sink, words.at)?;
    push_value(sink, before, after, memory, words.at, target)?;
    push_count(sink, words.count)
}

fn push_place<W: Sink>(sink: &mut W, at: u32) -> Result<(), WriteFault>
    ensures { Writes W.contents W.has_failed sink.old sink.new result (place_word at) }
{
    push_parts(
        sink,
        &[
            b" from [".as_slice(),
            HexText::word(at).as_slice(),
            b"]".as_slice(),
        ],
    )
}

fn push_value<W: Sink>(
    sink: &mut W,
    before: &Cpu,
    after: &Cpu,
    memory: &AddressMap,
    at: u32,
    target: Option<u32>,
) -> Result<(), WriteFault>
    ensures { Writes W.contents W.has_failed sink.old sink.new result
        (value_word before.now after.now (bytes_of memory.now) at target) }
{
    match target {
        Some(number) if is_same_register(before, after, number) => push_parts(
            sink,
            &[
                b"=".as_slice(),
                HexText::word(word_or_zero(memory, at)).as_slice(),
            ],
        ),
        _ => Ok(()),
    }
}

fn is_same_register(before: &Cpu, after: &Cpu, number: u32) -> bool
    ensures { result ≡ is_same_register before.now after.now number }
{
    number < 15 && before.register(number) == after.register(number)
}

fn push_count<W: Sink>(sink: &mut W, count: u32) -> Result<(), WriteFault>
    ensures { Writes W.contents W.has_failed sink.old sink.new result (count_word count) }
{
    if count == 1 {
        return Ok(());
    }
    let mut digits = Buffer::new();
    push_parts(
        sink,
        &[
            b" ".as_slice(),
            digits.format(count).as_bytes(),
            b" words".as_slice(),
        ],
    )
}
