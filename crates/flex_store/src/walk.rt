//! The walk over the headers of the flex store, which finds words among blocks and settles anchors
//! after a slide.

ghost use Rattle.std.specs.Prelude.{ℕ, ◌≡◌, ◌≤◌, ◌<◌, ◌+◌, ◌%◌, ◌^◌, ◌&&◌, nat_le, true};
ghost use Rattle.os_heap_words.specs.Kept.{KeepsBytes};
ghost use Rattle.os_heap.specs.Bytes.{word_at};
ghost use Rattle.os_heap.specs.Memory.{byte_at, bytes_of, class_of, is_mapped, layout};
ghost use Rattle.os_heap.specs.Class.TheVariants.{Anchor, FlexHeader, Plain};
ghost use Rattle.flex_store.specs.Blocks.{is_in_contents, bytes_taken_by, whole_words};
ghost use Rattle.flex_store.specs.Marks.{with_marks};
ghost use Rattle.flex_store.specs.Memory.{blocks_in, laid_out};
ghost use Rattle.flex_store.specs.Shifts.{following, AreShort};
ghost use Rattle.flex_store.specs.State.{AreAnchorWords, IsText};

use crate::marks::{clear_block, mark_block};
use crate::shift::{Shift, gone_to};
use os_heap::AddressMap;

/// The bytes of a block's header: its anchor's address, and its size.
pub(crate) const HEADER: u32 = 8;

/// Where in a header the size stands.
pub(crate) const SIZE: u32 = 4;

/// The word at an address.
#[tactic(auto, using(os_heap_words::proofs::Writing::word_mapped))]
pub(crate) fn word(map: &AddressMap, at: u32) -> u32
    requires aligned { at % 4 ≡ 0 }
    requires mapped { is_mapped map.now at ≡ true }
    ensures { result ≡ word_at (byte_at map.now) at }
{
    map.load_word(at).unwrap()
}

/// A number of bytes filled up to whole words.
pub(crate) fn whole_words(size: u64) -> u64
    requires { size < 2 ^ 33 }
    ensures { result ≡ whole_words size }
{
    (size + 3) / 4 * 4
}

/// The bytes that a block of some size takes up, those of its header too.
pub(crate) fn taken(size: u64) -> u64
    requires { size < 2 ^ 33 }
    ensures { result ≡ bytes_taken_by size }
{
    u64::from(HEADER) + whole_words(size)
}

/// Takes the marks off the headers and the anchors of all blocks from `at` up to `end`.
pub(crate) fn unmark(map: &mut AddressMap, at: u32, end: u32)
    requires text { IsText (bytes_of map.old) at end (blocks_in (byte_at map.old) at end) }
    requires words { AreAnchorWords (is_mapped map.old) at end (blocks_in (byte_at map.old) at end) }
    ensures kept { KeepsBytes map.old map.new }
    ensures marks { (a : ℕ) → class_of map.new a
        ≡ with_marks Plain Plain at (blocks_in (byte_at map.old) at end) (class_of map.old) a }
{
    let mut header = at;
    while header < end {
        let anchor = word(map, header);
        let size = word(map, header + SIZE);
        clear_block(map, header, anchor);
        header += taken(u64::from(size)) as u32;
    }
}

/// Settles all blocks from `at` up to `end`, whose anchors went where these shifts say: it names
/// each anchor in its block's header anew, marks it and the header, and writes the address of the
/// block's bytes to it.
pub(crate) fn settle(map: &mut AddressMap, at: u32, end: u32, shifts: &[Shift])
    requires text { IsText (bytes_of map.old) at end (blocks_in (byte_at map.old) at end) }
    requires words { AreAnchorWords (is_mapped map.old) at end
        (following shifts.now (blocks_in (byte_at map.old) at end)) }
    requires short { AreShort shifts.now }
    ensures bytes { (a : ℕ) → byte_at map.new a
        ≡ laid_out at (following shifts.now (blocks_in (byte_at map.old) at end)) (byte_at map.old) a }
    ensures layout { layout map.new ≡ layout map.old }
    ensures marks { (a : ℕ) → class_of map.new a
        ≡ with_marks FlexHeader Anchor at (following shifts.now (blocks_in (byte_at map.old) at end))
        (class_of map.old) a }
{
    let mut header = at;
    while header < end {
        let anchor = gone_to(shifts, word(map, header));
        let size = word(map, header + SIZE);
        mark_block(map, header, anchor);
        map.put_word(header, anchor);
        map.put_word(anchor, header + HEADER);
        header += taken(u64::from(size)) as u32;
    }
}

/// Whether a word lies among the bytes that one of the blocks from `at` up to `end` has for its
/// guest.
pub(crate) fn is_in_contents(map: &AddressMap, at: u32, end: u32, place: u32) -> bool
    requires { IsText (bytes_of map.now) at end (blocks_in (byte_at map.now) at end) }
    ensures { result ≡ is_in_contents at (blocks_in (byte_at map.now) at end) place }
{
    let mut header = at;
    while header < end {
        let size = word(map, header + SIZE);
        if is_among(header + HEADER, size, place) {
            return true;
        }
        header += taken(u64::from(size)) as u32;
    }
    false
}

/// Whether a word lies among the `size` bytes from `contents` on.
fn is_among(contents: u32, size: u32, place: u32) -> bool
    ensures { result ≡ (nat_le contents place && nat_le (place + 4) (contents + size)) }
{
    contents <= place && u64::from(place) + 4 <= u64::from(contents) + u64::from(size)
}
