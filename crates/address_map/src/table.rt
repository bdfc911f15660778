//! Tables of host memory. The module sees the allocator that their memory is from, and no other
//! module does.
ghost use Rattle.std.specs.Prelude.{◌≡◌, ◌<◌, IfOk, length, replicate, slice_index_or, slice_set};

use std::alloc::{AllocError, Global};
use std::marker::Model;

/// A table of a fixed length. `new` takes the host memory that its entries lie in, and no other
/// call takes any.
#[derive(Drop)]
pub(crate) struct Table<T> {
    entries: Vec<T>,
}

impl<T> Model for Table<T> {
    ghost use Rattle.std.specs.Prelude.{List};

    ghost Value = { List T };

    ghost view = { λ t. t.entries.items };
}

impl<T: Copy + Drop> Table<T> {
    /// A table of `len` entries, all the same.
    pub(crate) fn new(alloc: Global, entry: T, len: usize) -> Result<Table<T>, AllocError>
        ensures len { IfOk result (λ t. length t ≡ len) }
        ensures entries_if_clones_equal { IfOk result (λ t. ((y : T) → T.is_clone entry y → y ≡ entry) →
            t ≡ replicate len entry) }
    {
        Ok(Table {
            entries: vec![in alloc; entry; len]?,
        })
    }

    /// How many entries there are.
    #[inline(always)]
    pub(crate) fn len(&self) -> usize
        ensures { result ≡ length self.now }
    {
        self.entries.len()
    }

    /// The entry at a place.
    #[inline(always)]
    pub(crate) fn get(&self, at: usize) -> T
        requires { at < length self.now }
        ensures { result ≡ slice_index_or self.now at result }
    {
        self.entries[at]
    }

    /// Puts an entry at a place.
    #[inline(always)]
    pub(crate) fn set(&mut self, at: usize, entry: T)
        requires { at < length self.old }
        ensures { self.new ≡ slice_set self.old at entry }
    {
        self.entries[at] = entry;
    }

    /// Becomes a copy of a table of as many entries.
    pub(crate) fn copy_from(&mut self, other: &Table<T>)
        requires { length self.old ≡ length other.now }
        ensures { self.new ≡ other.now }
    {
        self.entries.copy_from_slice(&other.entries);
    }
}
