//! All bytes of a machine's memory, in one region: how it is made, read, written, copied within and
//! lent.

ghost use Rattle.std.specs.Prelude.{List, [], ℕ, ◌≡◌, ◌≤◌, ◌<◌, ◌+◌, ◌*◌, ◌↔◌, IsTrue, IfOk, length, replicate, slice_index, slice_set, slice_range};
ghost use Rattle.std.specs.Borrow.{sem};
ghost use Rattle.raw_store.specs.Region.{AreApartOrEmpty, word_in, word_bytes, bytes_after_write, bytes_after_copy, bytes_after_zero, bytes_after_growth};

use crate::block::{Base, Bytes, Deed, allocate};
use crate::lanes;
use crate::memory_map::PAGE_SIZE;
use byteorder::{ByteOrder, LittleEndian};
use std::alloc::{AllocError, Global};
use std::marker::Model;
use std::slice;

/// All bytes of a machine's memory, in one region whose room never grows.
///
/// A place is counted in bytes from the region's start. Bytes are written from there on, and what
/// was not written yet takes no memory that the host has to find. Each call but those that make a
/// region or write on wants a range that was written, which `fits` tests.
pub struct RawStore {
    base: Base,
    len: usize,
    bytes: Bytes,
    deed: Deed,
    room: usize,
}

impl Model for RawStore {
    ghost use Rattle.raw_store.specs.Region.{Region};

    ghost Value = { Region };

    ghost use Rattle.raw_store.specs.Store.{IsStore};

    ghost view = { λ s. record { items = s.bytes.items; spare = s.bytes.spare } };

    ghost invariant = { λ s. IsStore s.base s.len s.bytes s.deed s.room };
}

impl Drop for RawStore {
    fn drop(self) {
        let RawStore {
            base,
            len: _,
            bytes,
            deed,
            room,
        } = self;
        deed.give_back(base, room, bytes);
    }
}

impl RawStore {
    ghost use Rattle.raw_store.specs.StoreLends.{lends_range, lends_ranges};

    /// A region of that many pages of 4096 bytes, all zero.
    ///
    /// # Errors
    ///
    /// `AllocError` where the host has no memory for it.
    pub fn new(alloc: Global, pages: u32) -> Result<RawStore, AllocError>
        requires { pages ≤ 1024 }
        ensures bytes { IfOk result (λ s. s.items ≡ replicate (4096 * pages) 0) }
        ensures room { IfOk result (λ s. s.spare ≡ 0) }
    {
        let mut store = RawStore::with_room(alloc, pages)?;
        store.grow((PAGE_SIZE * pages) as usize);
        Ok(store)
    }

    /// A region with room for that many pages of 4096 bytes, none of which was written.
    ///
    /// # Errors
    ///
    /// `AllocError` where the host has no memory for it.
    pub fn with_room(alloc: Global, pages: u32) -> Result<RawStore, AllocError>
        requires { pages ≤ 1024 }
        ensures bytes { IfOk result (λ s. s.items ≡ []) }
        ensures room { IfOk result (λ s. s.spare ≡ 4096 * pages) }
    {
        let room = (PAGE_SIZE * pages) as usize;
        let (base, bytes, deed) = allocate(alloc, room)?;
        Ok(RawStore {
            base,
            len: 0,
            bytes,
            deed,
            room,
        })
    }

    /// Writes zeros after the bytes, until `len` were written. Where that many were written
    /// already, nothing is done.
    pub fn grow(&mut self, len: usize)
        requires { len ≤ length self.old.items + self.old.spare }
        ensures bytes { self.new.items ≡ bytes_after_growth self.old.items len }
        ensures room { length self.new.items + self.new.spare ≡ length self.old.items + self.old.spare }
    {
        if len > self.len {
            append_zeros(&mut self.bytes, self.base, self.len, len);
            self.len = len;
        }
    }

    /// Makes `len` bytes zero, including those that were not written yet; bytes before them that
    /// were not written are then zero as well.
    pub fn write_zeros(&mut self, at: usize, len: usize)
        requires { at + len ≤ length self.old.items + self.old.spare }
        ensures bytes { self.new.items ≡ bytes_after_zero (bytes_after_growth self.old.items (at + len)) at
            len }
        ensures room { length self.new.items + self.new.spare ≡ length self.old.items + self.old.spare }
    {
        let written = self.len;
        let end = at + len;
        if at < written {
            self.zero(at, written.min(end) - at);
        }
        self.grow(end);
    }

    /// How many bytes were written.
    pub fn len(&self) -> usize
        ensures { result ≡ length self.now.items }
    {
        self.len
    }

    /// Whether the `len` bytes from `at` on were written.
    pub fn fits(&self, at: usize, len: usize) -> bool
        ensures { IsTrue result ↔ (at + len ≤ length self.now.items) }
    {
        at <= self.len && len <= self.len - at
    }

    /// The byte at a place.
    pub fn read_byte(&self, at: usize) -> u8
        requires { at + 1 ≤ length self.now.items }
        ensures { result ≡ slice_index self.now.items at }
    {
        self.bytes.read(self.base, at)
    }

    /// The word whose lowest byte stands at a place, which needs no alignment.
    pub fn read_word(&self, at: usize) -> u32
        requires { at + 4 ≤ length self.now.items }
        ensures { result ≡ word_in self.now.items at }
    {
        LittleEndian::read_u32(self.lend(at, 4))
    }

    /// Writes a byte.
    pub fn write_byte(&mut self, at: usize, byte: u8)
        requires { at + 1 ≤ length self.old.items }
        ensures bytes { self.new.items ≡ slice_set self.old.items at byte }
        ensures room { self.new.spare ≡ self.old.spare }
    {
        self.bytes.write(self.base, at, byte);
    }

    /// Writes the four bytes of a word, the lowest first, at a place that needs no alignment.
    pub fn write_word(&mut self, at: usize, word: u32)
        requires { at + 4 ≤ length self.old.items }
        ensures bytes { self.new.items ≡ bytes_after_write self.old.items at (word_bytes word) }
        ensures room { self.new.spare ≡ self.old.spare }
    {
        LittleEndian::write_u32(self.lend_mut(at, 4), word);
    }

    /// Copies `len` bytes; the two ranges may overlap.
    pub fn copy(&mut self, from: usize, to: usize, len: usize)
        requires source { from + len ≤ length self.old.items }
        requires target { to + len ≤ length self.old.items }
        ensures bytes { self.new.items ≡ bytes_after_copy self.old.items from to len }
        ensures room { self.new.spare ≡ self.old.spare }
    {
        lanes::copy(self.lend_mut(0, self.len), from, to, len);
    }

    /// Makes `len` bytes zero.
    pub fn zero(&mut self, at: usize, len: usize)
        requires { at + len ≤ length self.old.items }
        ensures bytes { self.new.items ≡ bytes_after_zero self.old.items at len }
        ensures room { self.new.spare ≡ self.old.spare }
    {
        lanes::zero(self.lend_mut(at, len));
    }

    /// The `len` bytes from `at` on, for reading.
    pub fn lend(&self, at: usize, len: usize) -> &[u8]
        requires { at + len ≤ length self.now.items }
        ensures { result.now ≡ slice_range self.now.items at (at + len) }
    {
        self.bytes.lend(self.base, at, len)
    }

    /// The `len` bytes from `at` on, for writing. Once the loan has ended, the region holds there
    /// what was written.
    pub fn lend_mut(&mut self, at: usize, len: usize) -> &mut [u8]
        requires { at + len ≤ length self.old.items }
        ensures* writes_back { sem 𝓛 (lends_range self.entry at len result) }
        ensures value { result.now ≡ slice_range self.old.items at (at + len) }
    {
        self.bytes.lend_mut(self.base, at, len)
    }

    /// Two ranges that share no byte, for writing: the `n` bytes from `a` on, and the `m` from `b`
    /// on. An empty range may lie anywhere, inside the other too. Once the loan has ended, the
    /// region holds there what was written.
    pub fn lend_two(&mut self, a: usize, n: usize, b: usize, m: usize) -> (&mut [u8], &mut [u8])
        requires first { a + n ≤ length self.old.items }
        requires second { b + m ≤ length self.old.items }
        requires apart { AreApartOrEmpty a n b m }
        ensures* writes_back { sem 𝓛 (lends_ranges self.entry a n b m result) }
        ensures first { result.0.now ≡ slice_range self.old.items a (a + n) }
        ensures second { result.1.now ≡ slice_range self.old.items b (b + m) }
    {
        unsafe {
            (
                slice::from_raw_parts_mut(self.base.ptr.add(a), n),
                slice::from_raw_parts_mut(self.base.ptr.add(b), m),
            )
        }
    }

    /// Writes bytes, the first of them at a place.
    pub fn write(&mut self, at: usize, bytes: &[u8])
        requires { at + length bytes.now ≤ length self.old.items }
        ensures bytes { self.new.items ≡ bytes_after_write self.old.items at bytes.now }
        ensures room { self.new.spare ≡ self.old.spare }
    {
        self.lend_mut(at, bytes.len()).copy_from_slice(bytes);
    }
}

// Writes zeros after the `first` bytes of a block that were written, until `len` were.
fn append_zeros(bytes: &mut Bytes, base: Base, first: usize, len: usize)
    requires { (base.ptr ≡ bytes.old.at) × (first ≡ length bytes.old.items) × (first ≤ len)
        × (len ≤ first + bytes.old.spare) }
    ensures { (bytes.new.at ≡ bytes.old.at) × (bytes.new.items ≡ bytes_after_growth bytes.old.items len)
        × (bytes.new.spare + len ≡ bytes.old.spare + first) }
{
    let mut at = first;
    while at < len {
        bytes.push(base, at, 0);
        at += 1;
    }
}
