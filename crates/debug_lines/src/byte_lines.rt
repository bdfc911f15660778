//! Lines that name bytes: POKE and FILL write them, FIND looks for them.

ghost use Rattle.std.specs.Prelude.{◌≡◌, Some, option_map};
ghost use Rattle.debug_lines.specs.ByteLines.{address_count_and_text, counted_behind, counted_bytes, word_and_rest};
ghost use Rattle.debug_lines.specs.DebugRequests.{bytes_request, debug_request_of_command, fill_of, find_of, poke_at, poke_of};

use crate::repeats::space_in;
use crate::requests::DebugCommand;
use command_shell_lines::debug_words::{names_bytes, text_behind, value_shown};
use command_shell_lines::{ScriptCommand, WordAddress, count_up_to, number_of};

/// The most bytes that a line FILL writes.
const MAX_BYTES_FILLED: u32 = 1 << 20;

/// The most addresses that a line FIND looks at: all.
const MAX_BYTES_SEARCHED: u32 = 1 << 26;

/// An address, how many bytes, and a text that names bytes.
#[derive(Clone, Copy)]
pub struct CountedBytes<'a> {
    address: u32,
    count: u32,
    text: &'a [u8],
}

/// What a tidy line POKE, FILL or FIND asks for, if it is one.
pub(crate) fn bytes_command(line: &[u8]) -> Option<DebugCommand<'_>>
    ensures { option_map debug_request_of_command result ≡ bytes_request line.now }
{
    if let Some(text) = text_behind(b"POKE ", line) {
        Some(poke_command(text))
    } else if let Some(text) = text_behind(b"FILL ", line) {
        Some(fill_command(text))
    } else if let Some(text) = text_behind(b"FIND ", line) {
        Some(find_command(text))
    } else {
        None
    }
}

fn poke_command(text: &[u8]) -> DebugCommand<'_>
    ensures { debug_request_of_command result ≡ poke_of (word_and_rest text.now) }
{
    match word_and_rest(text) {
        Some((address, named)) => poke_at(address, named),
        None => DebugCommand::Unknown,
    }
}

// A word's value to the address of a word, or bytes to any address.
fn poke_at<'a>(address: &[u8], named: &'a [u8]) -> DebugCommand<'a>
    ensures { debug_request_of_command result ≡ poke_at address.now named.now }
{
    if let Some(value) = value_shown(named) {
        match WordAddress::spelled(address) {
            Some(address) => DebugCommand::Script(ScriptCommand::Poke(address, value)),
            None => DebugCommand::Unknown,
        }
    } else {
        match number_of(address) {
            Some(address) if names_bytes(named) => DebugCommand::Write(address, None, named),
            _ => DebugCommand::Unknown,
        }
    }
}

fn fill_command(text: &[u8]) -> DebugCommand<'_>
    ensures { debug_request_of_command result ≡ fill_of (counted_bytes 1048576 text.now) }
{
    match counted_bytes(MAX_BYTES_FILLED, text) {
        Some(fill) => DebugCommand::Write(fill.address, Some(fill.count), fill.text),
        None => DebugCommand::Unknown,
    }
}

fn find_command(text: &[u8]) -> DebugCommand<'_>
    ensures { debug_request_of_command result ≡ find_of (counted_bytes 67108864 text.now) }
{
    match counted_bytes(MAX_BYTES_SEARCHED, text) {
        Some(find) => DebugCommand::Find(find.address, find.count, find.text),
        None => DebugCommand::Unknown,
    }
}

// An address, how many bytes, up to the most, and a text that names bytes.
fn counted_bytes(most: u32, text: &[u8]) -> Option<CountedBytes<'_>>
    ensures { option_map address_count_and_text result ≡ counted_bytes most text.now }
{
    match word_and_rest(text) {
        Some((address, rest)) => counted_behind(most, address, rest),
        None => None,
    }
}

fn counted_behind<'a>(most: u32, address: &[u8], rest: &'a [u8]) -> Option<CountedBytes<'a>>
    ensures { option_map address_count_and_text result
        ≡ counted_behind most address.now (word_and_rest rest.now) }
{
    let (count, text) = word_and_rest(rest)?;
    let address = number_of(address)?;
    let count = count_up_to(most, count)?;
    if names_bytes(text) {
        Some(CountedBytes {
            address,
            count,
            text,
        })
    } else {
        None
    }
}

// A word, and what stands behind its space.
fn word_and_rest(text: &[u8]) -> Option<(&[u8], &[u8])>
    ensures { option_map (λ parts. (parts.0.now, parts.1.now)) result ≡ word_and_rest text.now }
{
    match space_in(text) {
        Some(place) => Some((&text[..place], &text[place + 1..])),
        None => None,
    }
}
