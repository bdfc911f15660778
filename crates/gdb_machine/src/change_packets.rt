//! Changes as they come in packets, and the packets that refuse them.

ghost use Rattle.std.specs.Prelude.{◌≡◌, IfOk, IfSome, option_map};
ghost use Rattle.hex.specs.Hex.{decode_of, decode_sized};
ghost use Rattle.gdb_machine.specs.Changes.{CanBeMade};
ghost use Rattle.gdb_machine.specs.ChangePackets.{break_refusal as break_refusal_shown, bytes_of_pairs, store_refusal as refusal_shown, watch_refusal as watch_refusal_shown, write_wanted};

use crate::changes::{RegisterWrite, register_write};
use crate::watches::WatchError;
use arm_core::breaks::BreakError;
use hex::{FromHexError, decode, decode_to_slice};
use profile::Fault;
use std::alloc::{AllocError, Global};

/// What a value of a register changes, which comes as pairs of digits.
pub fn wanted_write(number: u32, pairs: &[u8]) -> Option<RegisterWrite>
    ensures value { result ≡ write_wanted number (decode_sized pairs.now 4) }
    ensures made { IfSome result CanBeMade }
{
    let mut bytes = [0u8; 4];
    match decode_to_slice(pairs, &mut bytes) {
        Ok(()) => register_write(number, u32::from_le_bytes(bytes)),
        Err(_) => None,
    }
}

/// The bytes that come as pairs of digits, if they are.
pub fn decoded(alloc: Global, pairs: &[u8]) -> Result<Option<Vec<u8>>, AllocError>
    ensures { IfOk result (λ bytes. option_map (λ it. it.items) bytes
        ≡ bytes_of_pairs (decode_of pairs.now)) }
{
    match decode(alloc, pairs) {
        Ok(bytes) => Ok(Some(bytes)),
        Err(FromHexError::OutOfMemory) => Err(AllocError),
        Err(_) => Ok(None),
    }
}

/// The packet that shows why a break is not set.
pub fn break_refusal(error: BreakError) -> &'static [u8]
    ensures { result.now ≡ break_refusal_shown error }
{
    match error {
        BreakError::BreakTableFull => b"E1c",
        BreakError::Unaligned | BreakError::NoBreak => b"E16",
    }
}

/// The packet that shows why a watch is not set.
pub fn watch_refusal(error: WatchError) -> &'static [u8]
    ensures { result.now ≡ watch_refusal_shown error }
{
    match error {
        WatchError::WatchTableFull => b"E1c",
        WatchError::BadLength => b"E16",
    }
}

/// The packet that shows why bytes are not stored.
pub fn store_refusal(fault: Fault) -> &'static [u8]
    ensures { result.now ≡ refusal_shown fault }
{
    match fault {
        Fault::OwnedWord => b"E0d",
        _ => b"E0e",
    }
}
