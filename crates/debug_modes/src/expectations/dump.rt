//! The view DUMP: bytes of memory, and behind them the characters that they are.

ghost use Rattle.std.specs.Prelude.{◌≡◌};
ghost use Rattle.address_map.specs.Bytes.{byte_loaded};
ghost use Rattle.address_map.specs.Memory.{bytes_of};
ghost use Rattle.profile.specs.Output.{Writes};
ghost use Rattle.debug_labels.specs.Memory.{byte_text, bytes_text};
ghost use Rattle.debug_tables.specs.GuestState.{state_of};
ghost use Rattle.debug_modes.specs.expectations.Dump.{character_of, characters_text, dump_line, dump_text, loaded_character};

use address_map::AddressMap;
use command_shell::Machine;
use debug_labels::hex_byte;
use profile::{HexText, Sink, WriteFault, push_all, push_parts};

/// How many bytes stand on a line.
const LINE_BYTES: u32 = 16;

/// Writes `count` bytes of memory from an address on as MEM does, and behind each line the characters
/// that its bytes are: `00009000: 48 65 61 70  Heap`. For a byte that is none from a space to `~`, and
/// where no memory is mapped, a full stop stands.
pub fn show_dump<W: Sink>(
    machine: &Machine,
    address: u32,
    count: u32,
    sink: &mut W,
) -> Result<(), WriteFault>
    ensures { Writes W.contents W.has_failed sink.old sink.new result
        (dump_text (state_of machine.now.guest).store.bytes address count) }
{
    let map = machine.memory();
    let mut at = address;
    let mut left = count;
    while left > 0 {
        show_line(map, at, left.min(LINE_BYTES), sink)?;
        at = at.wrapping_add(LINE_BYTES);
        left = left.saturating_sub(LINE_BYTES);
    }
    Ok(())
}

fn show_line<W: Sink>(
    map: &AddressMap,
    address: u32,
    count: u32,
    sink: &mut W,
) -> Result<(), WriteFault>
    ensures { Writes W.contents W.has_failed sink.old sink.new result
        (dump_line (bytes_of map.now) address count) }
{
    push_parts(sink, &[HexText::word(address).as_slice(), b":".as_slice()])?;
    show_bytes(map, address, count, sink)?;
    push_all(sink, b"  ")?;
    show_characters(map, address, count, sink)?;
    push_all(sink, b"\n")
}

fn show_bytes<W: Sink>(
    map: &AddressMap,
    address: u32,
    count: u32,
    sink: &mut W,
) -> Result<(), WriteFault>
    ensures { Writes W.contents W.has_failed sink.old sink.new result
        (bytes_text (bytes_of map.now) address count) }
{
    let mut at = address;
    let mut left = count;
    while left > 0 {
        show_byte(map, at, sink)?;
        at = at.wrapping_add(1);
        left -= 1;
    }
    Ok(())
}

fn show_byte<W: Sink>(map: &AddressMap, address: u32, sink: &mut W) -> Result<(), WriteFault>
    ensures { Writes W.contents W.has_failed sink.old sink.new result
        (byte_text (bytes_of map.now) address) }
{
    match map.load_byte(address) {
        Ok(byte) => push_parts(sink, &[b" ".as_slice(), hex_byte(byte).as_slice()]),
        Err(_) => push_all(sink, b" --"),
    }
}

fn show_characters<W: Sink>(
    map: &AddressMap,
    address: u32,
    count: u32,
    sink: &mut W,
) -> Result<(), WriteFault>
    ensures { Writes W.contents W.has_failed sink.old sink.new result
        (characters_text (bytes_of map.now) address count) }
{
    let mut at = address;
    let mut left = count;
    while left > 0 {
        push_all(sink, &[character_at(map, at)])?;
        at = at.wrapping_add(1);
        left -= 1;
    }
    Ok(())
}

fn character_at(map: &AddressMap, address: u32) -> u8
    ensures { result ≡ loaded_character (byte_loaded (bytes_of map.now) address) }
{
    match map.load_byte(address) {
        Ok(byte) => character_of(byte),
        Err(_) => b'.',
    }
}

/// A byte as a character, `.` where it is none from a space to `~`.
pub(crate) fn character_of(byte: u8) -> u8
    ensures { result ≡ character_of byte }
{
    match byte {
        b' '..=b'~' => byte,
        _ => b'.',
    }
}
