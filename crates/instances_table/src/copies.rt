//! Copies of the table.
ghost use Rattle.std.specs.Prelude.{◌≡◌, ◌≤◌, length};

use crate::loaded::{Loaded, MOST_INSTANCES};
use crate::parts::Name;
use crate::table::InstanceTable;
use arrayvec::ArrayVec;
use std::array;

impl InstanceTable {
    /// Becomes a copy of another table.
    pub fn copy_from(&mut self, other: &InstanceTable)
        ensures { self.new ≡ other.now }
    {
        self.names = copied_names(&other.names);
        self.modules = copied_modules(other.modules.as_slice());
    }
}

impl Loaded {
    fn copied(&self) -> Loaded
        ensures { result ≡ self.now }
    {
        Loaded {
            header: self.header.copied(),
            image: self.image,
            slots: ArrayVec::try_from(self.slots.as_slice()).unwrap(),
            preferred: self.preferred,
        }
    }
}

fn copied_modules(modules: &[Loaded]) -> ArrayVec<Loaded, MOST_INSTANCES>
    requires { length modules.now ≤ 64 }
    ensures { result.items ≡ modules.now }
{
    let mut copies = ArrayVec::new();
    for loaded in modules {
        copies.push(loaded.copied());
    }
    copies
}

fn copied_names(names: &[Name; MOST_INSTANCES]) -> [Name; MOST_INSTANCES]
    ensures { result ≡ names.now }
{
    let mut copies = array::from_fn(|_| Name::new());
    for slot in 0..MOST_INSTANCES {
        copies[slot] = copied_name(&names[slot]);
    }
    copies
}

fn copied_name(name: &Name) -> Name
    ensures { result ≡ name.now }
{
    ArrayVec::try_from(name.as_slice()).unwrap()
}
