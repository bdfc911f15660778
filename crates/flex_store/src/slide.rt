//! Blocks that slide as one before them is changed, appended or removed.

ghost use Rattle.std.specs.Prelude.{ℕ, ◌≡◌, ◌≤◌, ◌<◌, ◌+◌, ◌-◌, ◌%◌, ◌^◌, ◌++◌, [], ◌∷◌, true};
ghost use Rattle.os_heap_words.specs.Kept.{KeepsMarks};
ghost use Rattle.os_heap.specs.Bytes.{AreMapped, bytes_between, with_bytes_at};
ghost use Rattle.os_heap.specs.Memory.{byte_at, bytes_of, is_mapped};
ghost use Rattle.flex_store.specs.Blocks.{contents, whole_words_of_bytes, block_holding, new_block, bytes_after_splice, bytes_taken_by, whole_words};
ghost use Rattle.flex_store.specs.Relaid.{blocks_behind_first, blocks_after_removal, first_at, MayLie, Relaid, blocks_after_splice};
ghost use Rattle.flex_store.specs.Splices.{size_after_splice, CanBytesMove, IsSplice, HasBytesForSizes};
ghost use Rattle.flex_store.specs.State.{AreAnchorWords, IsText};

use crate::shift::{Shift, splice_shifts};
use crate::splice::{Splice, splice_bytes};
use crate::walk::{HEADER, SIZE, settle, taken, unmark, whole_words, word};
use os_heap::AddressMap;

/// Changes a block's bytes, and moves those after it, up to `end`, to where the block then ends.
fn respace(map: &mut AddressMap, contents: u32, size: u32, splice: &Splice, end: u32)
    requires splice { IsSplice splice.now size }
    requires room { HasBytesForSizes (is_mapped map.old) contents size (size_after_splice splice.now size) }
    requires rest { CanBytesMove (is_mapped map.old) (contents + whole_words size)
        (contents + whole_words (size_after_splice splice.now size)) end }
    ensures bytes { (a : ℕ) → byte_at map.new a ≡ with_bytes_at (byte_at map.old) contents
        (whole_words_of_bytes (bytes_after_splice (bytes_between
        (byte_at map.old) contents size) splice.now.at splice.now.cut splice.now.more)
        ++ bytes_between (byte_at map.old) (contents + whole_words size)
        (end - (contents + whole_words size))) a }
    ensures kept { KeepsMarks map.old map.new }
{
    let old_end = contents + whole_words(u64::from(size)) as u32;
    let new_end = contents + whole_words(splice.size_after(size)) as u32;
    let len = end - old_end;
    if new_end < old_end {
        splice_bytes(map, contents, size, splice);
        map.move_bytes(old_end, new_end, len);
        return;
    }
    map.move_bytes(old_end, new_end, len);
    splice_bytes(map, contents, size, splice);
}

/// Changes the bytes of the block whose header is at `header`. Those after it, up to `end`, slide,
/// and the anchors that lie in what moves with them.
pub(crate) fn replace(map: &mut AddressMap, header: u32, splice: &Splice, end: u32)
    requires text { IsText (bytes_of map.old) header end
        (first_at map.old header ∷ blocks_behind_first map.old header end) }
    requires words { AreAnchorWords (is_mapped map.old) header end
        (first_at map.old header ∷ blocks_behind_first map.old header end) }
    requires splice { IsSplice splice.now (first_at map.old header).size }
    requires room { MayLie map.old header (blocks_after_splice map.old header end splice.now) }
    ensures { Relaid map.old map.new header (first_at map.old header ∷ blocks_behind_first map.old header end)
        (blocks_after_splice map.old header end splice.now) }
{
    let size = word(map, header + SIZE);
    let new_size = splice.size_after(size) as u32;
    let next = header + taken(u64::from(size)) as u32;
    let new_next = header + taken(u64::from(new_size)) as u32;
    unmark(map, header, end);
    respace(map, header + HEADER, size, splice, end);
    map.put_word(header + SIZE, new_size);
    let shifts = splice_shifts(header, size, splice, end);
    settle(map, header, new_next + (end - next), &shifts);
}

/// Takes the block whose header is at `header` out of the text. Those after it, up to `end`, slide,
/// and the anchors that lie in them with them.
pub(crate) fn remove(map: &mut AddressMap, header: u32, end: u32)
    requires text { IsText (bytes_of map.old) header end
        (first_at map.old header ∷ blocks_behind_first map.old header end) }
    requires words { AreAnchorWords (is_mapped map.old) header end
        (first_at map.old header ∷ blocks_behind_first map.old header end) }
    requires room { MayLie map.old header (blocks_after_removal map.old header end) }
    ensures { Relaid map.old map.new header (first_at map.old header ∷ blocks_behind_first map.old header end)
        (blocks_after_removal map.old header end) }
{
    let size = word(map, header + SIZE);
    let next = header + taken(u64::from(size)) as u32;
    unmark(map, header, end);
    map.move_bytes(next, header, end - next);
    let shift = Shift {
        from: next,
        end,
        to: header,
    };
    settle(map, header, header + (end - next), &[shift]);
}

/// Makes a block of `size` zeros at `header`, after all others.
pub(crate) fn append(map: &mut AddressMap, header: u32, anchor: u32, size: u32)
    requires aligned { header % 4 ≡ 0 }
    requires room { MayLie map.old header (new_block anchor size ∷ []) }
    ensures { Relaid map.old map.new header [] (new_block anchor size ∷ []) }
{
    map.put_word(header, anchor);
    map.put_word(header + SIZE, size);
    map.zero_bytes(header + HEADER, whole_words(u64::from(size)) as u32);
    settle(map, header, header + taken(u64::from(size)) as u32, &[]);
}
