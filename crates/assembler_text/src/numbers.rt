//! Numbers and immediate operands.

ghost use Rattle.std.specs.Prelude.{◌≡◌, ◌≤◌, ◌<◌, true, IfSome};
ghost use Rattle.arm_decode.specs.Output.{Writes};
ghost use Rattle.assembler_text.specs.Numbers.{gives, immediate_text, is_field, least_rotation, rotated_back};

use arm_decode::shifted::rotate_right;
use arm_decode::{HexText, Sink, WriteFault, push_parts};
use itoa::Buffer;

/// Writes `#v` where the rotation field is the least that gives v, else `#b,r`.
pub(crate) fn push_immediate<W: Sink>(
    rotation: u32,
    byte: u8,
    sink: &mut W,
) -> Result<(), WriteFault>
    requires { rotation < 16 }
    ensures { Writes W.contents W.has_failed sink.old sink.new result (immediate_text rotation byte) }
{
    let value = rotate_right(u32::from(byte), 2 * rotation);
    if is_field(least_rotation(value), rotation) {
        push_parts(sink, &[b"#&".as_slice(), HexText::number(value).as_slice()])
    } else {
        let mut turns = Buffer::new();
        push_parts(
            sink,
            &[
                b"#&".as_slice(),
                HexText::number(u32::from(byte)).as_slice(),
                b",".as_slice(),
                turns.format(2 * rotation).as_bytes(),
            ],
        )
    }
}

/// The least rotation field under which some byte gives this value.
pub fn least_rotation(value: u32) -> Option<u32>
    ensures least { result ≡ least_rotation value }
    ensures is_field { IfSome result (λ rotation. rotation < 16) }
    ensures is_byte { IfSome result (λ rotation. rotated_back value rotation ≤ 255) }
{
    for rotation in 0..16 {
        if gives(value, rotation) {
            return Some(rotation);
        }
    }
    None
}

fn is_field(least: Option<u32>, rotation: u32) -> bool
    ensures { result ≡ is_field least rotation }
{
    match least {
        Some(least) => least == rotation,
        None => false,
    }
}

// Whether a byte under this rotation field gives the value.
fn gives(value: u32, rotation: u32) -> bool
    requires { rotation < 16 }
    ensures { result ≡ gives value rotation }
{
    rotate_right(value, 32 - 2 * rotation) <= 255
}
