//! The text that a register points to.

ghost use Rattle.std.specs.Prelude.{◌≡◌, ◌==◌, [], codes, if◌then◌else◌};
ghost use Rattle.trace_effects.specs.Bytes.{byte_loaded};
ghost use Rattle.trace_effects.specs.Memory.{bytes_of};
ghost use Rattle.profile.specs.Output.{Writes};
ghost use Rattle.trace_text.specs.Strings.{character_loaded, characters_at, cut_text, string_word};

use arrayvec::ArrayVec;
use profile::{Sink, WriteFault, push_all};
use trace_effects::AddressMap;
use trace_store_text::push_quoted;

/// How many characters of a text are shown.
const MOST_CHARACTERS: usize = 40;

/// Writes the text at an address between double quotes, with a space before it: its characters up to
/// the first control character or where no memory is mapped. Behind 40 of them stands `..`.
pub fn push_string<W: Sink>(sink: &mut W, memory: &AddressMap, at: u32) -> Result<(), WriteFault>
    ensures writes { Writes W.contents W.has_failed sink.old sink.new result
        (string_word (bytes_of memory.now) at) }
{
    push_all(sink, b" ")?;
    push_cut(sink, characters_at(memory, at).as_slice())
}

fn push_cut<W: Sink>(sink: &mut W, characters: &[u8]) -> Result<(), WriteFault>
    ensures { Writes W.contents W.has_failed sink.old sink.new result (cut_text characters.now) }
{
    push_quoted(sink, characters)?;
    push_all(sink, dots_behind(characters.len()))
}

fn dots_behind(count: usize) -> &'static [u8]
    ensures { result.now ≡ (if count == 40 then codes ".." else []) }
{
    if count == MOST_CHARACTERS { b".." } else { b"" }
}

fn characters_at(memory: &AddressMap, first: u32) -> ArrayVec<u8, MOST_CHARACTERS>
    ensures { result.items ≡ characters_at (bytes_of memory.now) first 40 }
{
    let mut characters = ArrayVec::new();
    let mut at = first;
    for _count in 0..MOST_CHARACTERS {
        match character_at(memory, at) {
            Some(byte) => characters.push(byte),
            None => return characters,
        }
        at = at.wrapping_add(1);
    }
    characters
}

fn character_at(memory: &AddressMap, at: u32) -> Option<u8>
    ensures { result ≡ character_loaded (byte_loaded (bytes_of memory.now) at) }
{
    match memory.load_byte(at) {
        Ok(byte) if byte >= b' ' => Some(byte),
        _ => None,
    }
}
