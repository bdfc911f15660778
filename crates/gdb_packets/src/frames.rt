//! A packet in its frame, as it is sent.

ghost use Rattle.std.specs.Prelude.{◌≡◌, IfOk};
ghost use Rattle.profile.specs.Output.{Writes};
ghost use Rattle.gdb_packets.specs.Frames.{check_sum, packet_frame, is_escaped as is_escaped_shown, sent_byte, sent_bytes, turned_byte as turned_shown};

use crate::digits::digit;
use profile::{Sink, WriteFault, push_all};

/// Writes a packet in its frame.
#[tactic(auto, using(crate::proofs::FrameLemmas::frame_steps))]
pub fn push_packet<W: Sink>(sink: &mut W, packet: &[u8]) -> Result<(), WriteFault>
    ensures { Writes W.contents W.has_failed sink.old sink.new result (packet_frame packet.now) }
{
    push_all(sink, b"$")?;
    let total = push_sent(sink, packet)?;
    push_all(sink, &[b'#', digit(total / 16), digit(total % 16)])
}

// Writes the bytes of a packet, and gives the sum of what was written.
#[tactic(auto, using(crate::proofs::FrameLemmas::frame_steps))]
fn push_sent<W: Sink>(sink: &mut W, packet: &[u8]) -> Result<u8, WriteFault>
    ensures writes { Writes W.contents W.has_failed sink.old sink.new result (sent_bytes packet.now) }
    ensures total { IfOk result (λ total. total ≡ check_sum (sent_bytes packet.now)) }
{
    let mut total = 0u8;
    for byte in packet {
        total = total.wrapping_add(push_byte(sink, *byte)?);
    }
    Ok(total)
}

// Writes a byte of a packet, and gives the sum of what was written.
fn push_byte<W: Sink>(sink: &mut W, byte: u8) -> Result<u8, WriteFault>
    ensures writes { Writes W.contents W.has_failed sink.old sink.new result (sent_byte byte) }
    ensures total { IfOk result (λ total. total ≡ check_sum (sent_byte byte)) }
{
    if is_escaped(byte) {
        push_all(sink, &[b'}', turned_byte(byte)])?;
        return Ok(b'}'.wrapping_add(turned_byte(byte)));
    }
    push_all(sink, &[byte])?;
    Ok(byte)
}

fn is_escaped(byte: u8) -> bool
    ensures { result ≡ is_escaped_shown byte }
{
    byte == b'#' || byte == b'$' || byte == b'*' || byte == b'}'
}

/// A byte with bit 5 turned.
pub(crate) fn turned_byte(byte: u8) -> u8
    ensures { result ≡ turned_shown byte }
{
    if byte / 32 % 2 == 1 {
        byte - 32
    } else {
        byte + 32
    }
}
