//! Instances that are added in slots that are known already.

ghost use Rattle.std.specs.Prelude.{◌≡◌, ◌<◌, ◌≤◌, false, length};
ghost use Rattle.instances_table.specs.Additions.{added_to, is_named_at};
ghost use Rattle.instances_table.specs.Changes.{is_slot_held};
ghost use Rattle.instances_table.specs.Lookup.{number_of_title};

use crate::table::InstanceTable;

impl InstanceTable {
    /// Adds an instance to the module of a title, the youngest, in a slot. Where no module has the
    /// title nothing is done.
    ///
    /// RISC OS 3 Programmer's Reference Manual, "OS_Module", reason 14.
    pub fn add_to(&mut self, title: &[u8], name: &[u8], slot: u32)
        requires below { slot < 64 }
        requires free { is_slot_held slot self.old ≡ false }
        requires formed { length name.now ≤ 31 }
        requires unnamed { is_named_at name.now (number_of_title title.now self.old) self.old ≡ false }
        ensures { self.new ≡ added_to (number_of_title title.now self.old) name.now slot self.old }
    {
        if let Some(number) = self.number_of_title(title) {
            self.add_instance(number, name, slot);
        }
    }
}
