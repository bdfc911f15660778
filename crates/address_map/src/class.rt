//! The class of a byte of memory: the guest's own, or a word that the store calls keep a record in.

ghost use Rattle.std.specs.Prelude.{◌≡◌};
ghost use Rattle.address_map.specs.Classes.{class_number, is_anchor};
ghost use Rattle.address_map.specs.Memory.{is_plain};

/// What the store calls use a byte of memory for. A guest may write to `Plain` bytes alone.
#[derive(Clone, Copy)]
pub enum Class {
    /// The guest's own.
    Plain,
    /// A heap's descriptor, or the head of one of its blocks.
    Heap,
    /// The header of a block of the flex store.
    FlexHeader,
    /// A word that holds the address of a flex block.
    Anchor,
}

impl Class {
    /// Whether it is the guest's own.
    #[inline(always)]
    pub fn is_plain(&self) -> bool
        ensures { result ≡ is_plain self.now }
    {
        matches!(self, Class::Plain)
    }

    /// Whether it is that of a flex block's anchor.
    #[inline(always)]
    pub(crate) fn is_anchor(&self) -> bool
        ensures { result ≡ is_anchor self.now }
    {
        matches!(self, Class::Anchor)
    }

    /// The class as a number of two bits.
    pub(crate) fn number(self) -> u8
        ensures { result ≡ class_number self }
    {
        match self {
            Class::Plain => 0,
            Class::Heap => 1,
            Class::FlexHeader => 2,
            Class::Anchor => 3,
        }
    }
}
