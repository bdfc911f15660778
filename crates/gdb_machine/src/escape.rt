//! Bytes as they stand in XML.

ghost use Rattle.std.specs.Prelude.{◌≡◌, ◌<◌, true};
ghost use Rattle.profile.specs.Digits.{hex_digit};
ghost use Rattle.profile.specs.Output.{Writes};
ghost use Rattle.gdb_machine.specs.Escape.{are_bytes, escaped_bytes, escaped_byte, has_no_tag, unescaped_bytes};

use profile::{Sink, WriteFault, push_all};

/// Writes bytes so that XML has them as characters and takes nothing in them for its own. `<`, `>`, `&` and
/// `"` become references by their number; an unprintable byte, its two digits in
/// hexadecimal between `⟨` and `⟩`. Line feeds stay.
pub fn push_escaped<W: Sink>(sink: &mut W, bytes: &[u8]) -> Result<(), WriteFault>
    ensures writes { Writes W.contents W.has_failed sink.old sink.new result (escaped_bytes bytes.now) }
    ensures no_tag { are_bytes bytes.now ≡ true → has_no_tag (escaped_bytes bytes.now) ≡ true }
    ensures back { are_bytes bytes.now ≡ true → unescaped_bytes (escaped_bytes bytes.now) ≡ bytes.now }
{
    for byte in bytes {
        push_byte(sink, *byte)?;
    }
    Ok(())
}

fn push_byte<W: Sink>(sink: &mut W, byte: u8) -> Result<(), WriteFault>
    ensures { Writes W.contents W.has_failed sink.old sink.new result (escaped_byte byte) }
{
    let high = digit(byte / 16);
    let low = digit(byte % 16);
    match byte {
        b'<' | b'>' | b'&' | b'"' => push_all(sink, &[b'&', b'#', b'x', high, low, b';']),
        b'\n' | b' '..=b'~' => push_all(sink, &[byte]),
        _ => push_all(
            sink,
            &[
                b'&', b'l', b'a', b'n', b'g', b';', high, low, b'&', b'r', b'a', b'n', b'g', b';',
            ],
        ),
    }
}

// The digit of a number below 16, in hexadecimal, in capitals.
fn digit(value: u8) -> u8
    requires { value < 16 }
    ensures { result ≡ hex_digit value }
{
    if value < 10 { value + b'0' } else { value + 55 }
}
