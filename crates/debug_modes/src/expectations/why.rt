//! The view WHY: the error block that R0 leads to.

ghost use Rattle.std.specs.Prelude.{◌≡◌};
ghost use Rattle.address_map.specs.Bytes.{byte_loaded};
ghost use Rattle.address_map.specs.Memory.{bytes_of};
ghost use Rattle.profile.specs.Output.{Writes};
ghost use Rattle.debug_tables.specs.GuestState.{state_of};
ghost use Rattle.debug_modes.specs.expectations.Why.{error_line, loaded_or_zero, message_text, why_below, why_text};
ghost use Rattle.debug_modes.specs.expectations.reports.Reports.{answer_in};

use crate::expectations::dump::character_of;
use crate::expectations::reports::ReportForm;
use crate::modes::DebugModes;
use address_map::AddressMap;
use command_shell::Machine;
use itoa::Buffer;
use profile::{HexText, Sink, WriteFault, push_all, push_parts};

/// A message has so many bytes at most, without the zero behind it (RISC OS 3 Programmer's Reference
/// Manual, "Generating and handling errors").
const MOST_BYTES: u32 = 252;

/// Writes the error block that R0 leads to, its number in decimal and in hexadecimal, and its message:
/// `error 9 &9 HeapNoRoom`; or that V, which an error sets, is clear.
pub fn show_why<W: Sink>(machine: &Machine, sink: &mut W) -> Result<(), WriteFault>
    ensures { Writes W.contents W.has_failed sink.old sink.new result
        (why_text (state_of machine.now.guest).cpu (state_of machine.now.guest).store.bytes) }
{
    let cpu = machine.cpu();
    if !cpu.psr().overflow {
        return push_all(sink, b"no error: V is clear\n");
    }
    let map = machine.memory();
    let block = cpu.register(0);
    match map.load_word(block) {
        Ok(number) => show_error(map, number, block.wrapping_add(4), sink),
        Err(_) => push_all(sink, b"no error block at R0\n"),
    }
}

/// Writes below how a line ended, where that is an error and it is asked for, what WHY shows; the protocol leaves
/// it out.
pub fn push_why_below<W: Sink>(
    sink: &mut W,
    form: ReportForm,
    modes: &DebugModes,
    machine: &Machine,
    ending: &[u8],
) -> Result<(), WriteFault>
    ensures { Writes W.contents W.has_failed sink.old sink.new result
        (answer_in form (why_below modes.now (state_of machine.now.guest) ending.now)) }
{
    match form {
        ReportForm::Answers if modes.is_explaining && ending.starts_with(b"error ") => {
            show_why(machine, sink)
        }
        _ => Ok(()),
    }
}

// An error by its number and where its message begins.
fn show_error<W: Sink>(
    map: &AddressMap,
    number: u32,
    message: u32,
    sink: &mut W,
) -> Result<(), WriteFault>
    ensures { Writes W.contents W.has_failed sink.old sink.new result
        (error_line (bytes_of map.now) number message) }
{
    let mut digits = Buffer::new();
    push_parts(
        sink,
        &[
            b"error ".as_slice(),
            digits.format(number).as_bytes(),
            b" &".as_slice(),
            HexText::number(number).as_slice(),
            b" ".as_slice(),
        ],
    )?;
    push_message(map, message, MOST_BYTES, sink)?;
    push_all(sink, b"\n")
}

// A message up to the zero behind it, so many bytes at most.
fn push_message<W: Sink>(
    map: &AddressMap,
    address: u32,
    most: u32,
    sink: &mut W,
) -> Result<(), WriteFault>
    ensures { Writes W.contents W.has_failed sink.old sink.new result
        (message_text most (bytes_of map.now) address) }
{
    let mut at = address;
    let mut left = most;
    while left > 0 {
        let byte = byte_or_zero(map, at);
        if byte == 0 {
            return Ok(());
        }
        push_all(sink, &[character_of(byte)])?;
        at = at.wrapping_add(1);
        left -= 1;
    }
    Ok(())
}

// The byte at an address, 0 where no memory is mapped.
fn byte_or_zero(map: &AddressMap, address: u32) -> u8
    ensures { result ≡ loaded_or_zero (byte_loaded (bytes_of map.now) address) }
{
    match map.load_byte(address) {
        Ok(byte) => byte,
        Err(_) => 0,
    }
}
