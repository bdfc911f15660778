//! The items of a heap that are gone or new, a line for each.

ghost use Rattle.std.specs.Prelude.{◌≡◌};
ghost use Rattle.std.specs.List.{flat_map};
ghost use Rattle.store_copies.specs.Store.{store_of};
ghost use Rattle.profile.specs.Output.{Writes};
ghost use Rattle.trace_store_text.specs.items.Changes.{item_changes};
ghost use Rattle.trace_store_text.specs.ItemLines.{item_line, item_lines, verb_and_use};
ghost use Rattle.trace_store_text.specs.Sound.{AreBothSound};

use crate::items::{ItemChange, changed_items};
use crate::word_lines::push_more;
use address_map::{AddressMap, Item};
use itoa::Buffer;
use profile::{HexText, Sink, WriteFault, push_parts};

/// How many items of a heap are shown.
const MOST_LINES: u32 = 64;

/// Writes a line for each item of the heap that starts at an address that is gone or new, and how
/// many lines there would be more.
pub fn push_items<W: Sink>(
    sink: &mut W,
    heap: u32,
    before: &AddressMap,
    after: &AddressMap,
) -> Result<(), WriteFault>
    requires stores { AreBothSound before.now after.now }
    ensures writes { Writes W.contents W.has_failed sink.old sink.new result
        (item_lines heap (item_changes (store_of before.now) (store_of after.now) heap)) }
{
    let changes = changed_items(before, after, heap);
    push_first_items(sink, heap, changes.first.as_slice())?;
    push_more(
        sink,
        changes.count.saturating_sub(MOST_LINES),
        b" lines more\n",
    )
}

fn push_first_items<W: Sink>(
    sink: &mut W,
    heap: u32,
    changes: &[ItemChange],
) -> Result<(), WriteFault>
    ensures { Writes W.contents W.has_failed sink.old sink.new result
        (flat_map (item_line heap) changes.now) }
{
    for change in changes {
        push_item(sink, heap, change)?;
    }
    Ok(())
}

#[tactic(auto, unfolding(crate::specs::ItemLines::item_line))]
fn push_item<W: Sink>(sink: &mut W, heap: u32, change: &ItemChange) -> Result<(), WriteFault>
    ensures { Writes W.contents W.has_failed sink.old sink.new result (item_line heap change.now) }
{
    let mut total = Buffer::new();
    push_parts(
        sink,
        &[
            b"                  heap ".as_slice(),
            HexText::word(heap).as_slice(),
            verb_and_use(change.is_new, change.item),
            HexText::word(change.at).as_slice(),
            b" ".as_slice(),
            total.format(change.item.total()).as_bytes(),
            b"\n".as_slice(),
        ],
    )
}

fn verb_and_use(is_new: bool, item: Item) -> &'static [u8]
    ensures { result.now ≡ verb_and_use is_new item }
{
    match (is_new, item) {
        (false, Item::Live(_)) => b" gone live ",
        (false, Item::Free(_)) => b" gone free ",
        (true, Item::Live(_)) => b" new  live ",
        (true, Item::Free(_)) => b" new  free ",
    }
}
