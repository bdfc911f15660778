//! Memory as GDB reads it.

ghost use Rattle.std.specs.Prelude.{◌≡◌, ◌≤◌, IfOk, min};
ghost use Rattle.address_map.specs.Memory.{bytes_of};
ghost use Rattle.gdb_machine.specs.Memory.{known_bytes as known_shown, memory_reply, shown_bytes};

use address_map::AddressMap;
use gdb_packets::ByteRange;
use hex::encode;
use std::alloc::{AllocError, Global};

/// The most bytes that a packet reports: each takes two digits.
const MOST_SHOWN: u32 = 8192;

/// Bytes of memory as pairs of digits, as far as it is mapped; or that there is none.
pub fn memory_shown(
    alloc: Global,
    map: &AddressMap,
    range: ByteRange,
) -> Result<Vec<u8>, AllocError>
    ensures { IfOk result (λ text. text.items ≡ memory_reply (bytes_of map.now) range) }
{
    let count = range.count.min(MOST_SHOWN);
    let bytes = known_bytes(alloc, map, range.start, count)?;
    reported(alloc, count, bytes.as_slice())
}

fn reported(alloc: Global, count: u32, bytes: &[u8]) -> Result<Vec<u8>, AllocError>
    ensures { IfOk result (λ text. text.items ≡ shown_bytes count bytes.now) }
{
    match bytes {
        [] if count == 0 => Ok(Vec::new(alloc)),
        [] => Vec::from_slice(alloc, b"E0e"),
        [_, ..] => Ok(encode(alloc, bytes)?.into_bytes()),
    }
}

/// The bytes from an address on, as far as memory is mapped, and so many at most.
#[tactic(auto, using(crate::proofs::MemoryLemmas::known_steps))]
pub fn known_bytes(
    alloc: Global,
    map: &AddressMap,
    start: u32,
    count: u32,
) -> Result<Vec<u8>, AllocError>
    ensures { IfOk result (λ bytes. bytes.items ≡ known_shown (bytes_of map.now) start count) }
{
    let mut bytes = Vec::new(alloc);
    let mut address = start;
    let mut left = count;
    while left > 0 {
        let Ok(byte) = map.load_byte(address) else {
            return Ok(bytes);
        };
        bytes.push(byte)?;
        address = address.wrapping_add(1);
        left -= 1;
    }
    Ok(bytes)
}
