//! A range of memory read as the bytes of an image, in place.

ghost use Rattle.std.specs.Prelude.{◌≡◌, ◌<◌, slice_index};
ghost use Rattle.address_map.specs.Bytes.{AreMapped, bytes_between};
ghost use Rattle.address_map.specs.Memory.{is_mapped, byte_at};

use crate::map::AddressMap;
use raw_store::ImageBytes;
use std::marker::Model;

/// The bytes of a range of memory, read where they stand. The range may lie in several pages.
#[derive(Drop)]
pub struct View<'a> {
    map: &'a AddressMap,
    at: u32,
    len: u32,
}

impl<'a> Model for View<'a> {
    ghost use Rattle.std.specs.Prelude.{ℕ, List};
    ghost use Rattle.address_map.specs.Bytes.{AreMapped, bytes_between};
    ghost use Rattle.address_map.specs.Memory.{is_mapped, byte_at};

    ghost Value = { List ℕ };

    ghost view = { λ v. bytes_between (byte_at v.map.now) v.at v.len };

    ghost invariant = { λ v. AreMapped (is_mapped v.map.now) v.at v.len };
}

impl AddressMap {
    /// The `len` bytes from an address on, all of them mapped, as those of an image.
    pub fn view<'a>(&'a self, addr: u32, len: u32) -> View<'a>
        requires { AreMapped (is_mapped self.now) addr len }
        ensures { result ≡ bytes_between (byte_at self.now) addr len }
    {
        View {
            map: self,
            at: addr,
            len,
        }
    }
}

impl<'a> ImageBytes for View<'a> {
    ghost bytes = { λ v. v };

    #[tactic(auto, using(crate::proofs::Viewing::bytes_counted))]
    fn len(&self) -> usize {
        self.len as usize
    }

    #[tactic(auto, using(crate::proofs::Viewing::bytes_counted))]
    fn byte(&self, at: usize) -> u8 {
        byte_of(self.map, self.at, self.len, at as u32)
    }
}

/// The byte at a place of a mapped range.
#[tactic(auto, using(crate::proofs::Viewing::byte_viewed))]
fn byte_of(map: &AddressMap, addr: u32, len: u32, at: u32) -> u8
    requires mapped { AreMapped (is_mapped map.now) addr len }
    requires inside { at < len }
    ensures { result ≡ slice_index (bytes_between (byte_at map.now) addr len) at }
{
    map.load_byte(addr + at).unwrap()
}
