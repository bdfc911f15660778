//! One item of a heap's list, live or free, as memory spells it.

ghost use Rattle.std.specs.Prelude.{◌≡◌};
ghost use Rattle.address_map.specs.Items.{total_of};

/// One item of a heap: a block, or free room between blocks. Its total counts all bytes of the
/// item, its head words too.
#[derive(Clone, Copy)]
pub enum Item {
    /// A block that was claimed.
    Live(u32),
    /// Room that was given back.
    Free(u32),
}

impl Item {
    /// The bytes of the item.
    pub fn total(&self) -> u32
        ensures { result ≡ total_of self.now }
    {
        match *self {
            Item::Live(total) => total,
            Item::Free(total) => total,
        }
    }
}
