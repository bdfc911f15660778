//! The kinds of recorded ranges and marked words, and one recorded range.

ghost use Rattle.std.specs.Prelude.{◌≡◌};
ghost use Rattle.address_map.specs.Bytes.{shares_address};
ghost use Rattle.address_map.specs.Records.{is_heap_kind, is_record, class_of_kind, starts_heap};

use crate::class::Class;

/// What the store calls use a range of memory for.
#[derive(Clone, Copy, Default, PartialEq, Eq)]
pub enum Kind {
    /// A heap that a guest has made.
    #[default]
    Heap,
    /// The module area, which is a heap too.
    Rma,
    /// The range that sliding blocks lie in.
    FlexStore,
    /// One of the two words of a sliding block's header. It is marked, and no record of it is kept.
    FlexHeader,
    /// A word that holds the address of a sliding block. It is marked, and no record of it is kept.
    Anchor,
    /// A word that a heap's list spells: one of its descriptor, a length or a link. It is marked,
    /// and no record of it is kept.
    HeadWord,
    /// A module image: in the module area all that its block holds, elsewhere just its bytes.
    Image,
    /// The pages of the system: stack, private words, error block, environment text.
    SystemPage,
}

impl Kind {
    /// Whether a range of this kind is a heap: the module area is one too.
    pub fn is_heap(&self) -> bool
        ensures { result ≡ is_heap_kind self.now }
    {
        matches!(self, Kind::Heap | Kind::Rma)
    }

    /// The class that the one word of this kind has, or `None` for the kinds that are recorded as
    /// ranges.
    #[inline(always)]
    pub(crate) fn mark(&self) -> Option<Class>
        ensures { result ≡ class_of_kind self.now }
    {
        match self {
            Kind::HeadWord => Some(Class::Heap),
            Kind::FlexHeader => Some(Class::FlexHeader),
            Kind::Anchor => Some(Class::Anchor),
            _ => None,
        }
    }
}

/// A recorded range of memory: `len` bytes from `at` on.
#[derive(Clone, Copy, Default, PartialEq, Eq)]
pub struct Region {
    pub kind: Kind,
    pub at: u32,
    pub len: u32,
}

impl Region {
    /// Whether this is the record of a range of that kind that starts at `at`. Marked words have no
    /// records.
    pub(crate) fn is_record(&self, kind: Kind, at: u32) -> bool
        ensures { result ≡ is_record kind at self.now }
    {
        kind.mark().is_none() && self.kind == kind && self.at == at
    }

    /// Whether this is the record of a heap that a guest has made, and which starts among the `len`
    /// bytes from `at` on.
    pub fn starts_heap(&self, at: u32, len: u32) -> bool
        ensures { result ≡ starts_heap at len self.now }
    {
        matches!(self.kind, Kind::Heap) && self.at >= at && self.at - at < len
    }
}

/// Whether two ranges share an address.
pub fn do_meet(at: u32, len: u32, other: u32, other_len: u32) -> bool
    ensures { result ≡ shares_address at len other other_len }
{
    let end = u64::from(at) + u64::from(len);
    let other_end = u64::from(other) + u64::from(other_len);
    len > 0 && other_len > 0 && u64::from(at) < other_end && u64::from(other) < end
}
