//! The view MEM: bytes of memory, 16 on a line.

ghost use Rattle.std.specs.Prelude.{◌≡◌, ◌<◌};
ghost use Rattle.swi_dispatch_guest.specs.Bytes.{byte_loaded};
ghost use Rattle.swi_dispatch_guest.specs.AddressMapMemory.{bytes_of};
ghost use Rattle.assembler_text.specs.Digits.{hex_digit};
ghost use Rattle.swi_dispatch_guest.specs.Output.{Writes};
ghost use Rattle.debugger.specs.Memory.{hex_byte, loaded_text, byte_text, bytes_text, line_text, memory_text};
ghost use Rattle.swi_dispatch_guest.specs.GuestState.{state_of};

use assembler_text::HexText;
use swi_dispatch_guest::{AddressMap, Machine, Sink, WriteFault, push_all, push_parts};

/// How many bytes stand on a line.
const LINE_BYTES: u32 = 16;

/// Writes `count` bytes of memory from an address on, 16 on a line, each line with the address of
/// its first byte: `00009000: 48 65 61 70`. A byte where no memory is mapped is `--`. Addresses
/// count modulo 2^32.
pub fn show_memory<W: Sink>(
    machine: &Machine,
    address: u32,
    count: u32,
    sink: &mut W,
) -> Result<(), WriteFault>
    ensures writes { Writes W.contents W.has_failed sink.old sink.new result
        (memory_text (state_of machine.now.guest).store.bytes address count) }
{
    let map = machine.memory();
    let mut at = address;
    let mut left = count;
    while left > 0 {
        show_line(map, at, left.min(LINE_BYTES), sink)?;
        at = at.wrapping_add(LINE_BYTES);
        left = left.saturating_sub(LINE_BYTES);
    }
    Ok(())
}

fn show_line<W: Sink>(
    map: &AddressMap,
    address: u32,
    count: u32,
    sink: &mut W,
) -> Result<(), WriteFault>
    ensures { Writes W.contents W.has_failed sink.old sink.new result
        (line_text (bytes_of map.now) address count) }
{
    push_all(sink, HexText::word(address).as_slice())?;
    push_all(sink, b":")?;
    show_bytes(map, address, count, sink)?;
    push_all(sink, b"\n")
}

fn show_bytes<W: Sink>(
    map: &AddressMap,
    address: u32,
    count: u32,
    sink: &mut W,
) -> Result<(), WriteFault>
    ensures { Writes W.contents W.has_failed sink.old sink.new result
        (bytes_text (bytes_of map.now) address count) }
{
    let mut at = address;
    let mut left = count;
    while left > 0 {
        show_byte(map, at, sink)?;
        at = at.wrapping_add(1);
        left -= 1;
    }
    Ok(())
}

fn show_byte<W: Sink>(map: &AddressMap, address: u32, sink: &mut W) -> Result<(), WriteFault>
    ensures { Writes W.contents W.has_failed sink.old sink.new result (byte_text (bytes_of map.now) address) }
{
    push_parts(sink, &[b" ".as_slice(), digits_at(map, address).as_slice()])
}

// The two digits of the byte at an address.
fn digits_at(map: &AddressMap, address: u32) -> [u8; 2]
    ensures { result ≡ loaded_text (byte_loaded (bytes_of map.now) address) }
{
    match map.load_byte(address) {
        Ok(byte) => hex_byte(byte),
        Err(_) => *b"--",
    }
}

/// The two digits of a byte in hexadecimal, in capitals.
pub fn hex_byte(byte: u8) -> [u8; 2]
    ensures { result ≡ hex_byte byte }
{
    [digit(byte / 16), digit(byte % 16)]
}

fn digit(value: u8) -> u8
    requires { value < 16 }
    ensures { result ≡ hex_digit value }
{
    if value < 10 { value + b'0' } else { value + 55 }
}
