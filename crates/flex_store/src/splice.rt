//! A change in a block's bytes, and whether it would break an anchor that lies there.

ghost use Rattle.std.specs.Prelude.{ℕ, ◌≡◌, ◌≤◌, ◌<◌, ◌+◌, ◌-◌, ◌^◌, ◌++◌, ◌∷◌, true};
ghost use Rattle.os_heap_words.specs.Kept.{KeepsMarks};
ghost use Rattle.os_heap.specs.Bytes.{AreMapped, bytes_between, with_bytes_at};
ghost use Rattle.os_heap.specs.Memory.{anchor_of, byte_at, is_mapped};
ghost use Rattle.flex_store.specs.Calls.{breaks_anchor};
ghost use Rattle.flex_store.specs.Blocks.{whole_words_of_bytes, bytes_after_splice, bytes_taken_by, whole_words};
ghost use Rattle.flex_store.specs.Splices.{size_after_splice, IsSplice, HasBytesForSizes};

use crate::walk::{HEADER, taken, whole_words};
use os_heap::AddressMap;

/// A change of a block's bytes: the `cut` bytes before `at` go, and `more` zeros come in their
/// place.
#[derive(Clone, Copy)]
pub(crate) struct Splice {
    pub(crate) at: u32,
    pub(crate) cut: u32,
    pub(crate) more: u32,
}

impl Splice {
    /// The size of a block after it.
    pub(crate) fn size_after(&self, size: u32) -> u64
        requires { IsSplice self.now size }
        ensures { result ≡ size_after_splice self.now size }
    {
        u64::from(self.at - self.cut) + u64::from(self.more) + u64::from(size - self.at)
    }

    /// Whether it would take a byte of an anchor away, put bytes inside one, or move one by other
    /// than whole words. The block's bytes, of which there are `size`, begin at `contents`.
    pub(crate) fn breaks_anchor(&self, map: &AddressMap, contents: u32, size: u32) -> bool
        requires splice { IsSplice self.now size }
        requires low { contents + size ≤ 2 ^ 26 }
        ensures { result ≡ breaks_anchor
            (anchor_of map.now) contents size self.now.at self.now.cut self.now.more }
    {
        let place = contents + self.at;
        if map.anchor_in(place - self.cut, self.cut) {
            return true;
        }
        if self.more != 0 && self.at % 4 != 0 && map.anchor_in(place, 1) {
            return true;
        }
        self.more % 4 != self.cut % 4 && map.anchor_in(place, size - self.at)
    }
}

/// Changes a block's bytes, of which there are `size`. Those that fill it up to whole words become
/// zero.
pub(crate) fn splice_bytes(map: &mut AddressMap, contents: u32, size: u32, splice: &Splice)
    requires splice { IsSplice splice.now size }
    requires room { HasBytesForSizes (is_mapped map.old) contents size (size_after_splice splice.now size) }
    ensures bytes { (a : ℕ) → byte_at map.new a ≡ with_bytes_at (byte_at map.old) contents
        (whole_words_of_bytes (bytes_after_splice (bytes_between (byte_at map.old) contents size)
        splice.now.at splice.now.cut splice.now.more)) a }
    ensures kept { KeepsMarks map.old map.new }
{
    let gap = splice.at - splice.cut;
    let tail = gap + splice.more;
    let len = size - splice.at;
    let new_size = tail + len;
    map.move_bytes(contents + splice.at, contents + tail, len);
    map.zero_bytes(contents + gap, splice.more);
    let padding = whole_words(u64::from(new_size)) as u32 - new_size;
    map.zero_bytes(contents + new_size, padding);
}
