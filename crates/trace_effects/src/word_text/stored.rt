//! The words that an instruction stored to.

ghost use Rattle.std.specs.Prelude.{◌≡◌, ◌≤◌};
ghost use Rattle.arm_step.specs.Bytes.{word_loaded};
ghost use Rattle.arm_step.specs.Memory.{bytes_of};
ghost use Rattle.profile.specs.Output.{Writes};
ghost use Rattle.trace_effects.specs.word_text.Stored.{stored_below, stored_here, stored_line, stored_lines, stored_word, word_or_zero, word_values_from};

use crate::StoredWords;
use arm_step::AddressMap;
use arrayvec::ArrayVec;
use profile::{HexText, Sink, WriteFault, push_all, push_parts};

/// How many words an instruction stores to at most.
pub const MOST_STORED: usize = 16;

/// What stands in some words of memory; a word where no memory is mapped counts as 0.
pub fn old_words(memory: &AddressMap, words: StoredWords) -> ArrayVec<u32, MOST_STORED>
    requires { words.count ≤ 16 }
    ensures value { result.items ≡ word_values_from (bytes_of memory.now) words.at words.count }
{
    let mut old = ArrayVec::new();
    let mut at = words.at;
    for _words in 0..words.count {
        old.push(word_or_zero(memory, at));
        at = at.wrapping_add(4);
    }
    old
}

/// The word at an address; one where no memory is mapped counts as 0.
pub(crate) fn word_or_zero(memory: &AddressMap, at: u32) -> u32
    ensures { result ≡ word_or_zero (word_loaded (bytes_of memory.now) at) }
{
    match memory.load_word(at) {
        Ok(word) => word,
        Err(_) => 0,
    }
}

/// Writes the word that was stored, if it is one, for the line of its instruction.
pub fn push_stored_here<W: Sink>(
    sink: &mut W,
    memory: &AddressMap,
    at: u32,
    old: &[u32],
) -> Result<(), WriteFault>
    ensures writes { Writes W.contents W.has_failed sink.old sink.new result
        (stored_here (bytes_of memory.now) at old.now) }
{
    if old.len() == 1 {
        push_stored(sink, memory, at, old[0])
    } else {
        Ok(())
    }
}

/// Writes a line for each word that was stored, where they aren't one.
pub fn push_stored_below<W: Sink>(
    sink: &mut W,
    memory: &AddressMap,
    at: u32,
    old: &[u32],
) -> Result<(), WriteFault>
    ensures writes { Writes W.contents W.has_failed sink.old sink.new result
        (stored_below (bytes_of memory.now) at old.now) }
{
    if old.len() == 1 {
        return Ok(());
    }
    push_lines(sink, memory, at, old)
}

#[tactic(auto, using(crate::proofs::WordTextLemmas::StoredLemmas::line_steps))]
fn push_lines<W: Sink>(
    sink: &mut W,
    memory: &AddressMap,
    first: u32,
    old: &[u32],
) -> Result<(), WriteFault>
    ensures { Writes W.contents W.has_failed sink.old sink.new result
        (stored_lines (bytes_of memory.now) first old.now) }
{
    let mut at = first;
    for word in old {
        push_stored_line(sink, memory, at, *word)?;
        at = at.wrapping_add(4);
    }
    Ok(())
}

fn push_stored_line<W: Sink>(
    sink: &mut W,
    memory: &AddressMap,
    at: u32,
    old: u32,
) -> Result<(), WriteFault>
    ensures { Writes W.contents W.has_failed sink.old sink.new result
        (stored_line (bytes_of memory.now) at old) }
{
    push_all(sink, b"                 ")?;
    push_stored(sink, memory, at, old)?;
    push_all(sink, b"\n")
}

fn push_stored<W: Sink>(
    sink: &mut W,
    memory: &AddressMap,
    at: u32,
    old: u32,
) -> Result<(), WriteFault>
    ensures { Writes W.contents W.has_failed sink.old sink.new result
        (stored_word (bytes_of memory.now) at old) }
{
    push_parts(
        sink,
        &[
            b" [".as_slice(),
            HexText::word(at).as_slice(),
            b"]=".as_slice(),
            HexText::word(word_or_zero(memory, at)).as_slice(),
            b" was ".as_slice(),
            HexText::word(old).as_slice(),
        ],
    )
}
