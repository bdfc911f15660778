//! The view STACK: the words from the stack pointer of the present mode on.

ghost use Rattle.std.specs.Prelude.{◌≡◌};
ghost use Rattle.debugger.specs.AddressMapMemory.{bytes_of};
ghost use Rattle.profile.specs.Output.{Writes};
ghost use Rattle.debug_labels.specs.place_views.Places.{naming_on};
ghost use Rattle.debug_labels.specs.place_views.Stack.{stacked_address, stacked_place_text, stack_end_text, stack_words_text, stack_words_text_at, stacked_word_text};
ghost use Rattle.debugger.specs.GuestState.{state_of};

use crate::place_views::names::names_on;
use crate::{LabelTable, PlaceNames};
use debugger::{AddressMap, Machine};
use profile::memory_map::{ADDRESS_LIMIT, RETURN_GATE};
use profile::{HexText, Sink, WriteFault, push_all, push_parts};

/// The number of the stack pointer.
const STACK_POINTER: u32 = 13;

/// Writes at most `count` words from R13 of the present mode on, a line for each with its address,
/// `01C01FFC: 03800003`. Behind a word stands what its bits 25 to 2 are the address of: ` return gate`,
/// or, where memory is mapped there, the label there or near below it, as ` main:start+4`. R13's two
/// lowest bits are left out. The first word that isn't mapped is `--------`, and is the last line.
/// Addresses count modulo 2^32.
pub fn show_stack<W: Sink>(
    labels: &LabelTable,
    machine: &Machine,
    count: u32,
    sink: &mut W,
) -> Result<(), WriteFault>
    ensures writes { let s = state_of machine.now.guest in
        Writes W.contents W.has_failed sink.old sink.new result
        (stack_words_text (naming_on labels.now s) s.cpu s.store.bytes count) }
{
    let names = names_on(labels, machine);
    let top = machine.cpu().register(STACK_POINTER);
    show_from(&names, machine.memory(), top - top % 4, count, sink)
}

fn show_from<W: Sink>(
    names: &PlaceNames,
    memory: &AddressMap,
    top: u32,
    count: u32,
    sink: &mut W,
) -> Result<(), WriteFault>
    ensures { Writes W.contents W.has_failed sink.old sink.new result
        (stack_words_text_at names.now (bytes_of memory.now) top count) }
{
    let mut at = top;
    let mut left = count;
    while left > 0 {
        let Ok(word) = memory.load_word(at) else {
            return show_end(at, sink);
        };
        show_word(names, memory, at, word, sink)?;
        at = at.wrapping_add(4);
        left -= 1;
    }
    Ok(())
}

fn show_word<W: Sink>(
    names: &PlaceNames,
    memory: &AddressMap,
    address: u32,
    word: u32,
    sink: &mut W,
) -> Result<(), WriteFault>
    ensures { Writes W.contents W.has_failed sink.old sink.new result
        (stacked_word_text names.now (bytes_of memory.now) address word) }
{
    push_parts(
        sink,
        &[
            HexText::word(address).as_slice(),
            b": ".as_slice(),
            HexText::word(word).as_slice(),
        ],
    )?;
    push_place(names, memory, stacked_address(word), sink)?;
    push_all(sink, b"\n")
}

fn stacked_address(word: u32) -> u32
    ensures { result ≡ stacked_address word }
{
    word % ADDRESS_LIMIT / 4 * 4
}

// What an address is of.
fn push_place<W: Sink>(
    names: &PlaceNames,
    memory: &AddressMap,
    address: u32,
    sink: &mut W,
) -> Result<(), WriteFault>
    ensures { Writes W.contents W.has_failed sink.old sink.new result
        (stacked_place_text names.now (bytes_of memory.now) address) }
{
    if address == RETURN_GATE {
        return push_all(sink, b" return gate");
    }
    match memory.load_word(address) {
        Ok(_) => names.push_place(address, sink),
        Err(_) => Ok(()),
    }
}

fn show_end<W: Sink>(address: u32, sink: &mut W) -> Result<(), WriteFault>
    ensures { Writes W.contents W.has_failed sink.old sink.new result (stack_end_text address) }
{
    push_parts(
        sink,
        &[
            HexText::word(address).as_slice(),
            b": --------\n".as_slice(),
        ],
    )
}
