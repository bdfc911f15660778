//! The record of the ranges that store calls use: entered, looked up, given another length and
//! taken out.

ghost use Rattle.std.specs.Prelude.{◌≡◌, ◌<◌, ◌%◌, ◌++◌, ◌∷◌, [], ℕ, true, false, IsTrue, length, slice_set, MatchOption};
ghost use Rattle.address_map.specs.Records.{IsRegion, meets_record, with_region, without_heaps, without_region, with_len, is_word_kind, with_class, with_mark, without_mark};
ghost use Rattle.std.specs.List.{remove};

use crate::class::Class;
use crate::map::AddressMap;
use crate::region::{Kind, Region, do_meet};
use arrayvec::ArrayVec;

impl AddressMap {
    ghost use Rattle.address_map.specs.Memory.{is_mapped, byte_at, mapping, regions, class_of};

    /// The recorded ranges, the first recorded first.
    #[tactic(auto, unfolding(crate::specs::Memory::regions))]
    pub fn regions(&self) -> &[Region]
        ensures { result.now ≡ regions self.now }
    {
        self.regions.as_slice()
    }

    /// Whether a recorded range has a byte in the `len` bytes from `at` on.
    pub fn meets_record(&self, at: u32, len: u32) -> bool
        ensures { result ≡ meets_record (regions self.now) at len }
    {
        let regions = self.regions();
        for region in regions {
            if do_meet(at, len, region.at, region.len) {
                return true;
            }
        }
        false
    }

    /// Records a range that store calls use, or marks a word that only they may write: a head word,
    /// a word of a flex block's header or an anchor. A word is no record, and `len` says nothing
    /// there. No byte is changed.
    pub fn own(&mut self, kind: Kind, at: u32, len: u32)
        requires region { IsRegion (record { kind = kind; at = at; len = len }) }
        requires room { is_word_kind kind ≡ false → length (regions self.old) < 133 }
        requires mapped { is_word_kind kind ≡ true → is_mapped self.old at ≡ true }
        ensures regions { regions self.new
            ≡ with_region (regions self.old) (record { kind = kind; at = at; len = len }) }
        ensures mapping { mapping self.new ≡ mapping self.old }
        ensures bytes { byte_at self.new ≡ byte_at self.old }
        ensures marks { (a : ℕ) → class_of self.new a ≡ with_mark kind at (class_of self.old) a }
    {
        match kind.mark() {
            Some(class) => self.mark(at, class),
            None => self.record(Region { kind, at, len }),
        }
    }

    /// Records a range more.
    #[tactic(auto, unfolding(crate::specs::Memory::regions, crate::specs::Memory::place, crate::specs::Memory::byte_at, crate::specs::Memory::free_pages, crate::specs::Memory::class_of))]
    fn record(&mut self, region: Region)
        requires region { IsRegion region }
        requires room { length (regions self.old) < 133 }
        ensures regions { regions self.new ≡ regions self.old ++ region ∷ [] }
        ensures mapping { mapping self.new ≡ mapping self.old }
        ensures bytes { byte_at self.new ≡ byte_at self.old }
        ensures marks { class_of self.new ≡ class_of self.old }
    {
        self.regions.push(region);
    }

    /// Gives the word at an address a class.
    fn mark(&mut self, at: u32, class: Class)
        requires aligned { at % 4 ≡ 0 }
        requires mapped { IsTrue (is_mapped self.old at) }
        ensures regions { regions self.new ≡ regions self.old }
        ensures mapping { mapping self.new ≡ mapping self.old }
        ensures bytes { byte_at self.new ≡ byte_at self.old }
        ensures marks { (a : ℕ) → class_of self.new a ≡ with_class (class_of self.old) at class a }
    {
        let place = self.translate(at).unwrap();
        self.marks.set(place / 4, class);
    }

    /// Takes away the first record of that kind that starts at `at`, if there is one; or makes a
    /// word plain that was marked. No byte is changed, and the other records keep their order.
    pub fn disown(&mut self, kind: Kind, at: u32)
        requires aligned { is_word_kind kind ≡ true → at % 4 ≡ 0 }
        requires mapped { is_word_kind kind ≡ true → is_mapped self.old at ≡ true }
        ensures regions { regions self.new ≡ without_region (regions self.old) kind at }
        ensures mapping { mapping self.new ≡ mapping self.old }
        ensures bytes { byte_at self.new ≡ byte_at self.old }
        ensures marks { (a : ℕ) → class_of self.new a ≡ without_mark kind at (class_of self.old) a }
    {
        match kind.mark() {
            Some(_) => self.mark(at, Class::Plain),
            None => self.forget(kind, at),
        }
    }

    /// Takes away a record.
    #[tactic(auto, unfolding(crate::specs::Memory::regions, crate::specs::Memory::place, crate::specs::Memory::byte_at, crate::specs::Memory::free_pages, crate::specs::Memory::class_of))]
    fn forget(&mut self, kind: Kind, at: u32)
        ensures regions { regions self.new ≡ without_region (regions self.old) kind at }
        ensures mapping { mapping self.new ≡ mapping self.old }
        ensures bytes { byte_at self.new ≡ byte_at self.old }
        ensures marks { class_of self.new ≡ class_of self.old }
    {
        if let Some(index) = self.record_index(kind, at) {
            self.regions.remove(index);
        }
    }

    /// Takes away the records of all heaps of guests that start among the `len` bytes from `at` on.
    /// No byte is changed and no mark, and the other records keep their order.
    #[tactic(auto, unfolding(crate::specs::Memory::regions, crate::specs::Memory::place, crate::specs::Memory::byte_at, crate::specs::Memory::free_pages, crate::specs::Memory::class_of))]
    pub fn forget_heaps(&mut self, at: u32, len: u32)
        ensures regions { regions self.new ≡ without_heaps at len (regions self.old) }
        ensures mapping { mapping self.new ≡ mapping self.old }
        ensures bytes { byte_at self.new ≡ byte_at self.old }
        ensures marks { class_of self.new ≡ class_of self.old }
    {
        let mut left = ArrayVec::new();
        for region in self.regions.as_slice() {
            if !region.starts_heap(at, len) {
                left.push(*region);
            }
        }
        self.regions = left;
    }

    /// Gives the first record of that kind that starts at `at`, if there is one, another length. No
    /// byte is changed, and the records keep their order.
    #[tactic(auto, unfolding(crate::specs::Memory::regions, crate::specs::Memory::place, crate::specs::Memory::byte_at, crate::specs::Memory::free_pages, crate::specs::Memory::class_of))]
    pub fn set_len(&mut self, kind: Kind, at: u32, len: u32)
        requires region { IsRegion (record { kind = kind; at = at; len = len }) }
        ensures regions { regions self.new ≡ with_len (regions self.old) kind at len }
        ensures mapping { mapping self.new ≡ mapping self.old }
        ensures bytes { byte_at self.new ≡ byte_at self.old }
        ensures marks { class_of self.new ≡ class_of self.old }
    {
        if let Some(index) = self.record_index(kind, at) {
            self.regions[index] = Region { kind, at, len };
        }
    }

    /// Which of the records is the first of that kind that starts at `at`.
    fn record_index(&self, kind: Kind, at: u32) -> Option<usize>
        ensures found { MatchOption result (without_region (regions self.now) kind at ≡ regions self.now)
            (λ i. (i < length (regions self.now))
            × (without_region (regions self.now) kind at ≡ remove (regions self.now) i)) }
        ensures len { MatchOption result ((len : ℕ) → with_len (regions self.now) kind at len
            ≡ regions self.now)
            (λ i. (len : ℕ) → with_len (regions self.now) kind at len
            ≡ slice_set (regions self.now) i (record { kind = kind; at = at; len = len })) }
    {
        let regions = self.regions();
        for (index, region) in regions.iter().enumerate() {
            if region.is_record(kind, at) {
                return Some(index);
            }
        }
        None
    }
}
