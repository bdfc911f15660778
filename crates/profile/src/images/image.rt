//! One image, a copy of a name and its bytes.

ghost use Rattle.std.specs.Prelude.{◌≡◌, ◌≤◌, length, IfOk};

use crate::images::table::MOST_NAME_BYTES;
use arrayvec::ArrayVec;
use std::alloc::{AllocError, Global};

/// One image. `bytes` is `None` only in the places of a table that are not used.
#[derive(Default, Drop)]
pub(crate) struct Image {
    pub(crate) name: ArrayVec<u8, MOST_NAME_BYTES>,
    pub(crate) bytes: Option<Vec<u8>>,
}

impl Image {
    ghost use Rattle.profile.specs.images.Table.{entry_bytes, entry_of_image};

    /// A copy of name and bytes.
    pub(crate) fn new(alloc: Global, name: &[u8], bytes: &[u8]) -> Result<Image, AllocError>
        requires { length name.now ≤ 63 }
        ensures { IfOk result (λ image. entry_of_image image
            ≡ record { name = name.now; bytes = bytes.now }) }
    {
        let copy = Vec::from_slice(alloc, bytes)?;
        let mut short = ArrayVec::new();
        short.try_extend_from_slice(name).unwrap();
        Ok(Image {
            name: short,
            bytes: Some(copy),
        })
    }

    pub(crate) fn bytes(&self) -> &[u8]
        ensures { result.now ≡ entry_bytes self.now.bytes }
    {
        match &self.bytes {
            Some(bytes) => bytes.as_slice(),
            None => &[],
        }
    }
}
