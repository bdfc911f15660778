//! How many modules and instances the table has.

ghost use Rattle.std.specs.Prelude.{◌≡◌, ◌≤◌, length, slice_get};
ghost use Rattle.instances_table.specs.Lookup.{instance_count};

use crate::table::InstanceTable;

impl InstanceTable {
    /// How many modules there are, at most 64.
    pub fn count(&self) -> u32
        ensures value { result ≡ length self.now }
        ensures few { result ≤ 64 }
    {
        self.modules.len() as u32
    }

    /// How many instances the module of a number has, at most 64; none where there is no such
    /// module.
    pub fn instance_count(&self, number: u32) -> u32
        ensures value { result ≡ instance_count (slice_get self.now number) }
        ensures few { result ≤ 64 }
    {
        match self.modules.as_slice().get(number as usize) {
            Some(loaded) => loaded.slots.len() as u32,
            None => 0,
        }
    }
}
