//! The bytes that lines SAVE name.

ghost use Rattle.std.specs.Prelude.{◌≡◌, option_map, IfOk};
ghost use Rattle.address_map.specs.Memory.{bytes_of};
ghost use Rattle.rosm_tools.specs.debug.Saves.{bytes_saved};

use address_map::AddressMap;
use gdb_server::known_bytes;
use profile::images::Images;
use rosm_settings::saved_files::SavedBytes;
use std::alloc::{AllocError, Global};

/// The bytes, or `None` where there is no such image, or memory isn't mapped at one of the addresses.
///
/// # Errors
///
/// Memory of the host ran out.
pub fn saved_bytes(
    alloc: Global,
    images: &Images,
    memory: &AddressMap,
    named: SavedBytes<'_>,
) -> Result<Option<Vec<u8>>, AllocError>
    ensures { IfOk result (λ found. option_map (λ bytes. bytes.items) found
        ≡ bytes_saved images.now (bytes_of memory.now) named.entry) }
{
    match named {
        SavedBytes::Image(name) => match images.get(name) {
            Some(bytes) => Ok(Some(Vec::from_slice(alloc, bytes)?)),
            None => Ok(None),
        },
        SavedBytes::Memory(address, count) => {
            let bytes = known_bytes(alloc, memory, address, count)?;
            if bytes.len() == count as usize {
                Ok(Some(bytes))
            } else {
                Ok(None)
            }
        }
    }
}
