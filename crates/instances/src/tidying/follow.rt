//! Private words and images follow the blocks that moved.
ghost use Rattle.std.specs.Prelude.{◌≡◌, ◌≤◌, ◌<◌, length, map, slice_index, EachIndex};
ghost use Rattle.rma.specs.Bytes.{AreMapped};
ghost use Rattle.rma.specs.Memory.{byte_at, is_mapped};
ghost use Rattle.rma.specs.Areas.{AreaTable};
ghost use Rattle.rma.specs.Ground.{area_store_of};
ghost use Rattle.instances.specs.module_state.Sound.{HasSystemPages};
ghost use Rattle.instances.specs.tidying.Slid.{image_moved, private_words_at, words_moved};
ghost use Rattle.instances.specs.module_state.Kept.{StaysSound, KeepsPages};

use crate::module_state::{private_value, put_private};
use arrayvec::ArrayVec;
use instances_table::InstanceTable;
use rma::heap_slide::moved_to;
use rma::{AddressMap, BlockMove};

/// The most private words that instances have.
pub(crate) const MOST_WORDS: usize = 64;

/// The values of the private words of some slots.
#[tactic(auto, using(crate::proofs::TidyingLemmas::Looping::words_more, crate::proofs::TidyingLemmas::Looping::words_few))]
pub(crate) fn private_words(map: &AddressMap, slots: &[u32]) -> ArrayVec<u32, MOST_WORDS>
    requires below { EachIndex slots.now (λ k. slice_index slots.now k < 64) }
    requires few { length slots.now ≤ 64 }
    requires mapped { AreMapped (is_mapped map.now) 0x01C02000 256 }
    ensures { result.items ≡ private_words_at (byte_at map.now) slots.now }
{
    let mut words = ArrayVec::new();
    for slot in slots {
        words.push(private_value(map, *slot));
    }
    words
}

/// Gives each private word of some slots that names a block that moved the address where it went.
#[tactic(auto, using(crate::proofs::ModuleStateLemmas::Keeping::nothing_written))]
pub(crate) fn move_words(map: &mut AddressMap, slots: &[u32], moves: &[BlockMove])
    requires below { EachIndex slots.now (λ k. slice_index slots.now k < 64) }
    requires system { HasSystemPages map.old }
    ensures area_store { (l : AreaTable) → area_store_of map.new l ≡ words_moved moves.now slots.now
        (area_store_of map.old l) }
    ensures kept { KeepsPages map.old map.new (StaysSound map.old map.new) }
{
    for slot in slots {
        let word = private_value(map, *slot);
        put_private(map, *slot, moved_to(moves, word));
    }
}

/// Gives each module whose image moved the address where it went.
pub(crate) fn move_images(table: &mut InstanceTable, moves: &[BlockMove])
    ensures { table.new ≡ map (image_moved moves.now) table.old }
{
    for number in 0..table.count() {
        if let Some(info) = table.module(number) {
            table.moved(number, moved_to(moves, info.image));
        }
    }
}
