//! The view FIND: the addresses of a range at which bytes stand.

ghost use Rattle.std.specs.Prelude.{◌≡◌, IfOk, length, take};
ghost use Rattle.std.specs.Int.{from_bool};
ghost use Rattle.std.specs.List.{flat_map};
ghost use Rattle.address_map.specs.Bytes.{byte_loaded};
ghost use Rattle.address_map.specs.Memory.{bytes_of};
ghost use Rattle.profile.specs.Output.{Writes};
ghost use Rattle.command_shell.specs.NamedBytes.{named_bytes, or_no_bytes};
ghost use Rattle.command_shell.specs.GuestState.{state_of};
ghost use Rattle.debug_tables.specs.byte_writes.Find.{find_text, is_byte, place_text, byte_places, shown_place, stand_at};

use address_map::AddressMap;
use command_shell::{Machine, bytes_named};
use itoa::Buffer;
use profile::text_sink::TextSink;
use profile::{HexText, Sink, WriteFault, push_all, push_parts};
use std::alloc::{AllocError, Global};

/// So many addresses are shown at most.
const MOST_SHOWN: u32 = 64;

/// What FIND shows: the addresses, of `count` from one on, at which the bytes stand that a text names:
/// `found &9010`; the first 64 of them, and `.. 12 more`; or `not found`.
///
/// # Errors
///
/// Memory ran out.
pub fn find_text(
    alloc: Global,
    machine: &Machine,
    address: u32,
    count: u32,
    named: &[u8],
) -> Result<Vec<u8>, AllocError>
    ensures { IfOk result (λ text. text.items ≡ find_text (state_of machine.now.guest).store.bytes
        address count (or_no_bytes (named_bytes named.now))) }
{
    let bytes = bytes_named(alloc, named)?;
    let mut text = TextSink::new(alloc);
    let map = machine.memory();
    match show_find(map, address, count, bytes.as_slice(), &mut text) {
        Ok(()) => Ok(text.into_bytes()),
        Err(_) => Err(AllocError),
    }
}

fn show_find<W: Sink>(
    map: &AddressMap,
    address: u32,
    count: u32,
    bytes: &[u8],
    sink: &mut W,
) -> Result<(), WriteFault>
    ensures { Writes W.contents W.has_failed sink.old sink.new result
        (find_text (bytes_of map.now) address count bytes.now) }
{
    let found = show_places(map, address, count, bytes, sink)?;
    if found == 0 {
        return push_all(sink, b"not found\n");
    }
    let more = found.saturating_sub(MOST_SHOWN);
    if more == 0 {
        return Ok(());
    }
    let mut digits = Buffer::new();
    let shown = digits.format(more).as_bytes();
    push_parts(sink, &[b".. ".as_slice(), shown, b" more\n".as_slice()])
}

// The first places, and how many there are in all.
fn show_places<W: Sink>(
    map: &AddressMap,
    address: u32,
    count: u32,
    bytes: &[u8],
    sink: &mut W,
) -> Result<u32, WriteFault>
    ensures text { Writes W.contents W.has_failed sink.old sink.new result
        (flat_map place_text (take 64 (byte_places (bytes_of map.now) address count bytes.now))) }
    ensures found { IfOk result (λ found. found
        ≡ length (byte_places (bytes_of map.now) address count bytes.now)) }
{
    let mut at = address;
    let mut found: u32 = 0;
    for _place in 0..count {
        let stand = stand_at(map, at, bytes);
        show_place(stand, found, at, sink)?;
        found += u32::from(stand);
        at = at.wrapping_add(1);
    }
    Ok(found)
}

// A place, where bytes stand there and not too many were found before it.
fn show_place<W: Sink>(
    stand: bool,
    found: u32,
    address: u32,
    sink: &mut W,
) -> Result<(), WriteFault>
    ensures { Writes W.contents W.has_failed sink.old sink.new result (shown_place stand found address) }
{
    if !stand || found >= MOST_SHOWN {
        return Ok(());
    }
    let digits = HexText::number(address);
    let shown = digits.as_slice();
    push_parts(sink, &[b"found &".as_slice(), shown, b"\n".as_slice()])
}

// Whether bytes stand at an address.
fn stand_at(map: &AddressMap, address: u32, bytes: &[u8]) -> bool
    ensures { result ≡ stand_at (bytes_of map.now) address bytes.now }
{
    let mut at = address;
    for byte in bytes {
        if !is_byte(map, at, *byte) {
            return false;
        }
        at = at.wrapping_add(1);
    }
    true
}

fn is_byte(map: &AddressMap, address: u32, byte: u8) -> bool
    ensures { result ≡ is_byte (byte_loaded (bytes_of map.now) address) byte }
{
    match map.load_byte(address) {
        Ok(found) => found == byte,
        Err(_) => false,
    }
}
