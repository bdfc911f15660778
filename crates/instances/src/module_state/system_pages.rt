//! What instances have in the system pages: their private words, and the environment text.

ghost use Rattle.std.specs.Prelude.{◌≡◌, ◌≤◌, ◌<◌, length};
ghost use Rattle.rma.specs.Bytes.{AreMapped, word_at};
ghost use Rattle.rma.specs.Memory.{byte_at, is_mapped};
ghost use Rattle.rma.specs.Areas.{AreaTable};
ghost use Rattle.rma.specs.Ground.{area_store_of};
ghost use Rattle.instances_table.specs.plans.Code.{private_of};
ghost use Rattle.instances.specs.module_state.Sound.{HasSystemPages};
ghost use Rattle.instances.specs.module_state.ModuleState.{private_word, with_private, with_text};
ghost use Rattle.instances.specs.module_state.Kept.{StaysSound, KeepsPages};

use instances_table::ENVIRONMENT_TEXT;
use instances_table::plans::private_word;
use rma::AddressMap;

/// The value of the private word of a slot.
pub fn private_value(map: &AddressMap, slot: u32) -> u32
    requires below { slot < 64 }
    requires mapped { AreMapped (is_mapped map.now) 0x01C02000 256 }
    ensures value { result ≡ word_at (byte_at map.now) (private_of slot) }
    ensures area_store { (l : AreaTable) → result ≡ private_word (area_store_of map.now l) slot }
{
    map.load_word(private_word(slot)).unwrap()
}

/// Gives the private word of a slot a value.
pub fn put_private(map: &mut AddressMap, slot: u32, value: u32)
    requires below { slot < 64 }
    requires system { HasSystemPages map.old }
    ensures area_store { (l : AreaTable) → area_store_of map.new l ≡ with_private (area_store_of map.old l)
        slot value }
    ensures kept { KeepsPages map.old map.new (StaysSound map.old map.new) }
{
    map.put_word(private_word(slot), value);
}

/// Makes a text of at most 255 bytes, with a zero byte after it, the environment text, which module
/// code finds at its initialisation.
pub fn put_text(map: &mut AddressMap, text: &[u8])
    requires short { length text.now ≤ 255 }
    requires system { HasSystemPages map.old }
    ensures area_store { (l : AreaTable) → area_store_of map.new l ≡ with_text (area_store_of map.old l)
        text.now }
    ensures kept { KeepsPages map.old map.new (StaysSound map.old map.new) }
{
    map.put_bytes(ENVIRONMENT_TEXT, text);
    map.put_bytes(ENVIRONMENT_TEXT + text.len() as u32, &[0]);
}
