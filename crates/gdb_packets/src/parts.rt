//! The parts of a packet.

ghost use Rattle.std.specs.Prelude.{◌≡◌, ◌==◌, option_map};
ghost use Rattle.std.specs.List.{position};
ghost use Rattle.gdb_packets.specs.Requests.{PacketParts, behind_opening as behind_shown, is_call_result as is_result_shown, thread_in, parts_around as parted_shown, parts_of, byte_range_of as range_shown};

use crate::numbers::number_of;
use crate::requests::ByteRange;

/// What stands before the first separator and behind it.
#[derive(Drop)]
pub(crate) struct PartedText<'a> {
    /// Before it.
    pub(crate) before: &'a [u8],
    /// Behind it.
    pub(crate) behind: &'a [u8],
}

/// What stands before the first separator and behind it, where there is one.
pub(crate) fn parts_around(separator: u8, text: &[u8]) -> Option<PartedText<'_>>
    ensures { option_map parts_of result ≡ parted_shown separator text.now }
{
    match place_of(separator, text) {
        Some(place) => Some(PartedText {
            before: &text[..place],
            behind: &text[place + 1..],
        }),
        None => None,
    }
}

fn place_of(separator: u8, text: &[u8]) -> Option<usize>
    ensures { result ≡ position (λ b. b == separator) text.now }
{
    text.iter().position(|byte| *byte == separator)
}

/// What follows an opening.
pub(crate) fn behind_opening<'a>(opening: &[u8], packet: &'a [u8]) -> Option<&'a [u8]>
    ensures { option_map (λ text. text.now) result ≡ behind_shown opening.now packet.now }
{
    if packet.len() >= opening.len() && &packet[..opening.len()] == opening {
        Some(&packet[opening.len()..])
    } else {
        None
    }
}

/// `a,n`: an address, and how many bytes.
pub(crate) fn byte_range_of(text: &[u8]) -> Option<ByteRange>
    ensures { result ≡ range_shown text.now }
{
    let parts = parts_around(b',', text)?;
    match (number_of(parts.before), number_of(parts.behind)) {
        (Some(start), Some(count)) => Some(ByteRange { start, count }),
        _ => None,
    }
}

/// Whether a text says what a call came to: a number, or `-1`.
pub(crate) fn is_call_result(text: &[u8]) -> bool
    ensures { result ≡ is_result_shown text.now }
{
    number_of(text).is_some() || text == b"-1".as_slice()
}

/// Whether the thread that a text names is the one that there is, if it names one: 1, or 0 for any, or
/// `-1` for all.
pub(crate) fn thread_in(text: &[u8]) -> Option<bool>
    ensures { result ≡ thread_in text.now }
{
    match number_of(text) {
        Some(number) => Some(number <= 1),
        None if text == b"-1".as_slice() => Some(true),
        None => None,
    }
}
