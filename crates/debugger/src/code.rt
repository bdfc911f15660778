//! Words of memory and their instructions, as text.

ghost use Rattle.swi_dispatch_guest.specs.AddressMapMemory.{bytes_of};
ghost use Rattle.swi_dispatch_guest.specs.Output.{Writes};
ghost use Rattle.debugger.specs.Code.{line_address_text, code_line, code_text, word_text};
ghost use Rattle.swi_dispatch_guest.specs.GuestState.{state_of};

use assembler_text::{HexText, disassemble};
use swi_dispatch_guest::{AddressMap, Machine, Sink, WriteFault, push_all, push_parts};

/// Writes a line for each of `count` words from an address on: the word and its instruction, or
/// that it isn't mapped. Addresses count modulo 2^32.
pub fn show_code<W: Sink>(
    machine: &Machine,
    address: u32,
    count: u32,
    sink: &mut W,
) -> Result<(), WriteFault>
    ensures writes { Writes W.contents W.has_failed sink.old sink.new result
        (code_text (state_of machine.now.guest).store.bytes address count) }
{
    show_words(machine.memory(), address, count, sink)
}

fn show_words<W: Sink>(
    memory: &AddressMap,
    address: u32,
    count: u32,
    sink: &mut W,
) -> Result<(), WriteFault>
    ensures { Writes W.contents W.has_failed sink.old sink.new result
        (code_text (bytes_of memory.now) address count) }
{
    let mut at = address;
    for _words in 0..count {
        show_line(memory, at, sink)?;
        at = at.wrapping_add(4);
    }
    Ok(())
}

fn show_line<W: Sink>(memory: &AddressMap, address: u32, sink: &mut W) -> Result<(), WriteFault>
    ensures { Writes W.contents W.has_failed sink.old sink.new result
        (code_line (bytes_of memory.now) address) }
{
    push_parts(sink, &[HexText::word(address).as_slice(), b" ".as_slice()])?;
    match memory.load_word(address) {
        Ok(word) => show_word(word, address, sink),
        Err(_) => push_all(sink, b"-------- unmapped\n"),
    }
}

fn show_word<W: Sink>(word: u32, address: u32, sink: &mut W) -> Result<(), WriteFault>
    ensures { Writes W.contents W.has_failed sink.old sink.new result (word_text address word) }
{
    push_parts(sink, &[HexText::word(word).as_slice(), b" ".as_slice()])?;
    disassemble(word, address, sink)?;
    push_all(sink, b"\n")
}
