//! Bytes as a text between double quotes, as a script can spell them.

ghost use Rattle.std.specs.List.{flat_map};
ghost use Rattle.swi_dispatch_guest.specs.Output.{Writes};
ghost use Rattle.debugger.specs.views.Quoted.{quoted_byte_text, quoted_text};

use crate::hex_byte;
use swi_dispatch_guest::{Sink, WriteFault, push_all, push_parts};

/// Writes bytes as a text between double quotes, `"Hi\n\r"`: a line feed, a carriage return and a
/// tab as `\n`, `\r` and `\t`, `"` and a backslash behind a backslash, a character from a space to
/// `~` as it is, and any other byte as `\x` and two digits, `\x1B`.
pub fn push_quoted<W: Sink>(sink: &mut W, bytes: &[u8]) -> Result<(), WriteFault>
    ensures writes { Writes W.contents W.has_failed sink.old sink.new result (quoted_text bytes.now) }
{
    push_all(sink, b"\"")?;
    push_escaped(sink, bytes)?;
    push_all(sink, b"\"")
}

fn push_escaped<W: Sink>(sink: &mut W, bytes: &[u8]) -> Result<(), WriteFault>
    ensures { Writes W.contents W.has_failed sink.old sink.new result (flat_map quoted_byte_text bytes.now) }
{
    for byte in bytes {
        push_byte(sink, *byte)?;
    }
    Ok(())
}

fn push_byte<W: Sink>(sink: &mut W, byte: u8) -> Result<(), WriteFault>
    ensures { Writes W.contents W.has_failed sink.old sink.new result (quoted_byte_text byte) }
{
    match byte {
        b'\n' => push_all(sink, b"\\n"),
        b'\r' => push_all(sink, b"\\r"),
        b'\t' => push_all(sink, b"\\t"),
        b'"' | b'\\' => push_all(sink, &[b'\\', byte]),
        b' '..=b'~' => push_all(sink, &[byte]),
        _ => push_parts(sink, &[b"\\x".as_slice(), hex_byte(byte).as_slice()]),
    }
}
