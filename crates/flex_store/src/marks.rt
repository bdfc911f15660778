//! Marks on the words of a block's header and on its anchor, which no store instruction may write
//! then.

ghost use Rattle.std.specs.Prelude.{ℕ, ◌≡◌, ◌+◌, ◌%◌, ◌<◌, ◌^◌, true};
ghost use Rattle.os_heap_words.specs.Kept.{KeepsBytes};
ghost use Rattle.os_heap.specs.Class.TheVariants.{Anchor, FlexHeader, Plain};
ghost use Rattle.os_heap.specs.Memory.{class_of, is_mapped};
ghost use Rattle.os_heap.specs.Records.{is_word_kind, with_mark, without_mark};
ghost use Rattle.flex_store.specs.Marks.{with_block_marks};

use os_heap::{AddressMap, Kind};

/// The bytes of a word.
const WORD: u32 = 4;

/// Marks a word of a header or an anchor, which only store calls may write from then on.
fn mark(map: &mut AddressMap, kind: Kind, at: u32)
    requires kind { is_word_kind kind ≡ true }
    requires aligned { at % 4 ≡ 0 }
    requires mapped { is_mapped map.old at ≡ true }
    ensures marks { (a : ℕ) → class_of map.new a ≡ with_mark kind at (class_of map.old) a }
    ensures kept { KeepsBytes map.old map.new }
{
    map.own(kind, at, WORD);
}

/// Makes such a word the guest's own again.
fn clear_mark(map: &mut AddressMap, kind: Kind, at: u32)
    requires kind { is_word_kind kind ≡ true }
    requires aligned { at % 4 ≡ 0 }
    requires mapped { is_mapped map.old at ≡ true }
    ensures marks { (a : ℕ) → class_of map.new a ≡ without_mark kind at (class_of map.old) a }
    ensures kept { KeepsBytes map.old map.new }
{
    map.disown(kind, at);
}

/// Marks the two words of a block's header, and its anchor.
pub(crate) fn mark_block(map: &mut AddressMap, header: u32, anchor: u32)
    requires header { header % 4 ≡ 0 }
    requires first { is_mapped map.old header ≡ true }
    requires second { is_mapped map.old (header + 4) ≡ true }
    requires low { header < 2 ^ 26 }
    requires anchor { anchor % 4 ≡ 0 }
    requires there { is_mapped map.old anchor ≡ true }
    ensures marks { (a : ℕ) → class_of map.new a ≡ with_block_marks FlexHeader Anchor header anchor
        (class_of map.old) a }
    ensures kept { KeepsBytes map.old map.new }
{
    mark(map, Kind::FlexHeader, header);
    mark(map, Kind::FlexHeader, header + WORD);
    mark(map, Kind::Anchor, anchor);
}

/// Makes these words the guest's own again.
pub(crate) fn clear_block(map: &mut AddressMap, header: u32, anchor: u32)
    requires header { header % 4 ≡ 0 }
    requires first { is_mapped map.old header ≡ true }
    requires second { is_mapped map.old (header + 4) ≡ true }
    requires low { header < 2 ^ 26 }
    requires anchor { anchor % 4 ≡ 0 }
    requires there { is_mapped map.old anchor ≡ true }
    ensures marks { (a : ℕ) → class_of map.new a ≡ with_block_marks Plain Plain header anchor
        (class_of map.old) a }
    ensures kept { KeepsBytes map.old map.new }
{
    clear_mark(map, Kind::FlexHeader, header);
    clear_mark(map, Kind::FlexHeader, header + WORD);
    clear_mark(map, Kind::Anchor, anchor);
}
