//! The view WORDS: words of memory, four on a line.

ghost use Rattle.swi_dispatch_guest.specs.AddressMapMemory.{bytes_of};
ghost use Rattle.swi_dispatch_guest.specs.Output.{Writes};
ghost use Rattle.debugger.specs.views.Words.{spaced_word_text, spaced_words_text, words_line, memory_words_text};
ghost use Rattle.swi_dispatch_guest.specs.GuestState.{state_of};

use assembler_text::HexText;
use swi_dispatch_guest::{AddressMap, Machine, Sink, WriteFault, push_all, push_parts};

/// How many words stand on a line.
const LINE_WORDS: u32 = 4;

/// The bytes of a line's words.
const LINE_BYTES: u32 = 16;

/// Writes `count` words of memory, four on a line, each line with the address of its first word:
/// `00008008: 00000000 00000000 E2800001 EAFFFFFD`. The first is the word that holds the byte at
/// the address, so that its two lowest bits are left out. A word where no memory is mapped is
/// `--------`. Addresses count modulo 2^32.
pub fn show_words<W: Sink>(
    machine: &Machine,
    address: u32,
    count: u32,
    sink: &mut W,
) -> Result<(), WriteFault>
    ensures writes { Writes W.contents W.has_failed sink.old sink.new result
        (memory_words_text (state_of machine.now.guest).store.bytes address count) }
{
    let memory = machine.memory();
    let mut at = address - address % 4;
    let mut left = count;
    while left > 0 {
        show_line(memory, at, left.min(LINE_WORDS), sink)?;
        at = at.wrapping_add(LINE_BYTES);
        left = left.saturating_sub(LINE_WORDS);
    }
    Ok(())
}

fn show_line<W: Sink>(
    memory: &AddressMap,
    address: u32,
    count: u32,
    sink: &mut W,
) -> Result<(), WriteFault>
    ensures { Writes W.contents W.has_failed sink.old sink.new result
        (words_line (bytes_of memory.now) address count) }
{
    push_all(sink, HexText::word(address).as_slice())?;
    push_all(sink, b":")?;
    show_spaced(memory, address, count, sink)?;
    push_all(sink, b"\n")
}

// The words of a line, a space before each.
fn show_spaced<W: Sink>(
    memory: &AddressMap,
    address: u32,
    count: u32,
    sink: &mut W,
) -> Result<(), WriteFault>
    ensures { Writes W.contents W.has_failed sink.old sink.new result
        (spaced_words_text (bytes_of memory.now) address count) }
{
    let mut at = address;
    let mut left = count;
    while left > 0 {
        show_word(memory, at, sink)?;
        at = at.wrapping_add(4);
        left -= 1;
    }
    Ok(())
}

fn show_word<W: Sink>(memory: &AddressMap, address: u32, sink: &mut W) -> Result<(), WriteFault>
    ensures { Writes W.contents W.has_failed sink.old sink.new result
        (spaced_word_text (bytes_of memory.now) address) }
{
    match memory.load_word(address) {
        Ok(word) => push_parts(sink, &[b" ".as_slice(), HexText::word(word).as_slice()]),
        Err(_) => push_all(sink, b" --------"),
    }
}
