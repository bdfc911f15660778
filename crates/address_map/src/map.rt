//! The address map: memory as a guest's loads and stores and the store calls' own writes see it,
//! with the faults that a guest meets.

ghost use Rattle.std.specs.Prelude.{ℕ, [], ◌≡◌, ◌≤◌, ◌<◌, ◌+◌, ◌*◌, ◌%◌, ◌^◌, ◌↔◌, false, IsTrue, IfOk, MatchResult, MatchOption, Some, None, length, All};
ghost use Rattle.raw_store.specs.Outcome.{Leaves};
ghost use Rattle.address_map.specs.declared.class.Class.{Class};
ghost use Rattle.address_map.specs.Bytes.{AreMapped, byte_loaded, word_loaded, byte_stored, word_stored, with_word_at, with_bytes_at, with_zeros_at, load_fault, store_fault};
ghost use Rattle.address_map.specs.Pages.{AreWritten, IsPageTable, frame_count};
ghost use Rattle.address_map.specs.Records.{IsRegion};

use crate::frame::PageFrame;
use crate::marks::Marks;
use crate::pages::{MARKS_IN_PAGE, all_frames, page_count};
use crate::region::Region;
use crate::table::Table;
use arrayvec::ArrayVec;
use raw_store::{ADDRESS_LIMIT, Fault, MOST_PAGES, RawStore};
use std::alloc::{AllocError, Global};

/// The most frames of 4096 bytes that the memory has.
pub(crate) const MOST_FRAMES: usize = MOST_PAGES as usize;

/// The most ranges that can be recorded. At most 132 are: 64 heaps, the module area, a flex store,
/// 65 images, the system pages.
pub(crate) const MOST_REGIONS: usize = 133;

/// The address space of a machine: the memory that it has, and the addresses where that is mapped.
///
/// Each page of the address space that is mapped has a frame of the store, where its bytes lie; the
/// other frames are free. The store has room for as many frames as the memory has pages, so that a
/// memory can become a copy of any other that has as many; its bytes are written as far as frames
/// were used. Addresses that are not mapped read as 0 in the contracts; a load or a store there is
/// a fault. Each word of the store has a mark, which says what store calls use it for. A word lies
/// at a multiple of 4 and never meets two pages. No call but `new` takes host memory.
#[derive(Drop)]
pub struct AddressMap {
    pub(crate) store: RawStore,
    pub(crate) marks: Marks,
    pub(crate) frames: Table<PageFrame>,
    pub(crate) free: ArrayVec<u16, MOST_FRAMES>,
    pub(crate) regions: ArrayVec<Region, MOST_REGIONS>,
    pub ghost bytes_fit: { All (λ b. b < 256) store.items },
    pub ghost in_limit: { frame_count frames free.items ≤ 1024 },
    pub ghost marks_fit: { 16 * length marks.bytes ≡ length store.items + store.spare },
    pub ghost frames_fit: { 4096 * frame_count frames free.items ≡ length store.items + store.spare },
    pub ghost table: { IsPageTable frames free.items },
    pub ghost written: { AreWritten frames (length store.items) },
    pub ghost recorded: { All IsRegion regions.items },
}

/// Bytes of one page, which lie one after another in the store too.
#[derive(Clone, Copy)]
pub(crate) struct Span {
    pub(crate) addr: u32,
    pub(crate) place: usize,
    pub(crate) len: u32,
}

impl AddressMap {
    ghost use Rattle.address_map.specs.Memory.{IsSpan, place, is_mapped, byte_at, bytes_of, free_pages, page_total, regions, layout, class_of, is_owned};

    /// A memory of that many pages of 4096 bytes, none of which is mapped.
    ///
    /// # Errors
    ///
    /// `AllocError` where the host has no memory for it.
    pub fn new(alloc: Global, pages: u32) -> Result<AddressMap, AllocError>
        requires { pages ≤ 1024 }
        ensures mapping { IfOk result (λ m. (a : ℕ) → is_mapped m a ≡ false) }
        ensures pages { IfOk result (λ m. free_pages m ≡ pages) }
        ensures total { IfOk result (λ m. page_total m ≡ pages) }
        ensures regions { IfOk result (λ m. regions m ≡ []) }
        ensures marks { IfOk result (λ m. (a : ℕ) → class_of m a ≡ Class.Plain) }
        ensures owned { IfOk result (λ m. (a : ℕ) → is_owned m a ≡ false) }
    {
        let store = RawStore::with_room(alloc, pages)?;
        let marks = Marks::new(alloc, MARKS_IN_PAGE * pages as usize)?;
        let frames = Table::new(alloc, PageFrame::none(), page_count())?;
        Ok(AddressMap {
            store,
            marks,
            frames,
            free: all_frames(pages),
            regions: ArrayVec::new(),
        })
    }

    /// Becomes a copy of another memory of as many pages: its bytes, what is mapped and where, what
    /// is recorded, and how words are marked.
    #[tactic(auto, unfolding(crate::specs::Memory::place, crate::specs::Memory::byte_at, crate::specs::Memory::regions, crate::specs::Memory::free_pages, crate::specs::Memory::page_total, crate::specs::Memory::class_of))]
    pub fn copy_from(&mut self, other: &AddressMap)
        requires { page_total self.old ≡ page_total other.now }
        ensures bytes { byte_at self.new ≡ byte_at other.now }
        ensures layout { layout self.new ≡ layout other.now }
        ensures marks { class_of self.new ≡ class_of other.now }
        ensures total { page_total self.new ≡ page_total self.old }
    {
        let bytes = other.store.lend(0, other.store.len());
        self.store.grow(bytes.len());
        self.store.write(0, bytes);
        self.marks.copy_from(&other.marks);
        self.frames.copy_from(&other.frames);
        copy_table(&mut self.free, &other.free);
        copy_table(&mut self.regions, &other.regions);
    }

    /// The bytes from an address on to the end of its page, or `None` where no memory is mapped.
    pub(crate) fn span(&self, addr: u32) -> Option<Span>
        ensures { MatchOption result (place self.now addr ≡ None)
            (λ span. (span.addr ≡ addr) × IsSpan self.now addr span.place span.len) }
    {
        let page = self.page_at(addr)?;
        let offset = addr - page.addr;
        Some(Span {
            addr,
            place: page.place + offset as usize,
            len: page.len - offset,
        })
    }

    /// The byte at an address.
    ///
    /// # Errors
    ///
    /// `AddressException` from 2^26 on, else `DataUnmapped` where no memory is mapped.
    #[inline(always)]
    pub fn load_byte(&self, addr: u32) -> Result<u8, Fault>
        ensures { result ≡ byte_loaded (bytes_of self.now) addr }
    {
        let place = self.readable(addr)?;
        Ok(self.store.read_byte(place))
    }

    /// The word that holds the byte at an address.
    ///
    /// # Errors
    ///
    /// As `load_byte`.
    #[inline(always)]
    pub fn load_word(&self, addr: u32) -> Result<u32, Fault>
        ensures { result ≡ word_loaded (bytes_of self.now) addr }
    {
        let place = self.readable(addr - addr % 4)?;
        Ok(self.store.read_word(place))
    }

    /// The word at an address that has 26 bits, as `load_word` gives it: the word that a core
    /// fetches.
    ///
    /// # Errors
    ///
    /// `DataUnmapped` where no memory is mapped.
    #[inline(always)]
    pub fn fetch_word(&self, addr: u32) -> Result<u32, Fault>
        requires { addr < 2 ^ 26 }
        ensures { result ≡ word_loaded (bytes_of self.now) addr }
    {
        match self.place_of(addr - addr % 4) {
            Some(place) => Ok(self.store.read_word(place)),
            None => Err(Fault::DataUnmapped),
        }
    }

    /// Stores a byte for a guest.
    ///
    /// # Errors
    ///
    /// `AddressException` from 2^26 on, else `DataUnmapped` where no memory is mapped, else
    /// `OwnedWord` where the store calls keep their records. Nothing is changed then.
    #[inline(always)]
    pub fn store_byte(&mut self, addr: u32, byte: u8) -> Result<(), Fault>
        ensures bytes { let stored = byte_stored (is_owned self.old) (bytes_of self.old) addr byte in
            Leaves (bytes_of self.old) stored result (bytes_of self.new) }
        ensures layout { layout self.new ≡ layout self.old }
        ensures marks { class_of self.new ≡ class_of self.old }
    {
        let place = self.writable(addr)?;
        self.store.write_byte(place, byte);
        Ok(())
    }

    /// Stores the word that holds the byte at an address, for a guest.
    ///
    /// # Errors
    ///
    /// As `store_byte`.
    #[inline(always)]
    pub fn store_word(&mut self, addr: u32, word: u32) -> Result<(), Fault>
        ensures bytes { let stored = word_stored (is_owned self.old) (bytes_of self.old) addr word in
            Leaves (bytes_of self.old) stored result (bytes_of self.new) }
        ensures layout { layout self.new ≡ layout self.old }
        ensures marks { class_of self.new ≡ class_of self.old }
    {
        let place = self.writable(addr - addr % 4)?;
        self.store.write_word(place, word);
        Ok(())
    }

    /// Writes a word, owned or not.
    pub fn put_word(&mut self, addr: u32, word: u32)
        requires aligned { addr % 4 ≡ 0 }
        requires mapped { IsTrue (is_mapped self.old addr) }
        ensures bytes { (a : ℕ) → byte_at self.new a ≡ with_word_at (byte_at self.old) addr word a }
        ensures layout { layout self.new ≡ layout self.old }
        ensures marks { class_of self.new ≡ class_of self.old }
    {
        let place = self.translate(addr).unwrap();
        self.store.write_word(place, word);
    }

    fn write_span(&mut self, span: Span, bytes: &[u8])
        requires span { IsSpan self.old span.addr span.place span.len }
        requires within { length bytes.now ≤ span.len }
        ensures bytes { (a : ℕ) → byte_at self.new a ≡ with_bytes_at
            (byte_at self.old) span.addr bytes.now a }
        ensures layout { layout self.new ≡ layout self.old }
        ensures marks { class_of self.new ≡ class_of self.old }
    {
        self.store.write(span.place, bytes);
    }

    fn zero_span(&mut self, span: Span, len: u32)
        requires span { IsSpan self.old span.addr span.place span.len }
        requires within { len ≤ span.len }
        ensures bytes { (a : ℕ) → byte_at self.new a ≡ with_zeros_at (byte_at self.old) span.addr len a }
        ensures layout { layout self.new ≡ layout self.old }
        ensures marks { class_of self.new ≡ class_of self.old }
    {
        self.store.zero(span.place, len as usize);
    }

    /// Writes bytes, owned or not, the first of them at an address.
    pub fn put_bytes(&mut self, addr: u32, bytes: &[u8])
        requires { AreMapped (is_mapped self.old) addr (length bytes.now) }
        ensures bytes { (a : ℕ) → byte_at self.new a ≡ with_bytes_at (byte_at self.old) addr bytes.now a }
        ensures layout { layout self.new ≡ layout self.old }
        ensures marks { class_of self.new ≡ class_of self.old }
    {
        let mut done = 0;
        while done < bytes.len() {
            let span = self.span(addr + done as u32).unwrap();
            let end = bytes.len().min(done + span.len as usize);
            self.write_span(span, &bytes[done..end]);
            done = end;
        }
    }

    /// Makes `len` bytes zero, owned or not, the first of them at an address.
    pub fn zero_bytes(&mut self, addr: u32, len: u32)
        requires { AreMapped (is_mapped self.old) addr len }
        ensures bytes { (a : ℕ) → byte_at self.new a ≡ with_zeros_at (byte_at self.old) addr len a }
        ensures layout { layout self.new ≡ layout self.old }
        ensures marks { class_of self.new ≡ class_of self.old }
    {
        let mut done = 0;
        while done < len {
            let span = self.span(addr + done).unwrap();
            let now = span.len.min(len - done);
            self.zero_span(span, now);
            done += now;
        }
    }

    /// Whether each of the `len` addresses from `addr` on is mapped.
    pub fn maps(&self, addr: u32, len: u32) -> bool
        ensures { IsTrue result ↔ AreMapped (is_mapped self.now) addr len }
    {
        let mut done = 0;
        while done < len {
            let Some(span) = self.span(addr + done) else {
                return false;
            };
            done += span.len;
        }
        true
    }

    /// Where in the store the byte of an address lies that a guest may read.
    #[tactic(auto, using(crate::proofs::Loads::place_below))]
    #[inline(always)]
    fn readable(&self, addr: u32) -> Result<usize, Fault>
        ensures { MatchResult result
            (λ k. (load_fault (bytes_of self.now) addr ≡ None) × (place self.now addr ≡ Some k))
            (λ fault. load_fault (bytes_of self.now) addr ≡ Some fault) }
    {
        match self.translate(addr) {
            Some(place) => Ok(place),
            None if addr < ADDRESS_LIMIT => Err(Fault::DataUnmapped),
            None => Err(Fault::AddressException),
        }
    }

    /// Where in the store the byte of an address lies that a guest may write to.
    #[inline(always)]
    fn writable(&self, addr: u32) -> Result<usize, Fault>
        ensures { let refused = store_fault (is_owned self.now) (bytes_of self.now) addr in
            MatchResult result (λ k. (refused ≡ None) × (place self.now addr ≡ Some k))
            (λ fault. refused ≡ Some fault) }
    {
        let place = self.readable(addr)?;
        if !self.marks.is_plain(place / 4) {
            return Err(Fault::OwnedWord);
        }
        Ok(place)
    }
}

// A table becomes a copy of another.
fn copy_table<T: Copy + Default + Drop, const CAP: usize>(
    to: &mut ArrayVec<T, CAP>,
    from: &ArrayVec<T, CAP>,
)
    ensures { to.new.items ≡ from.now.items }
{
    to.clear();
    to.try_extend_from_slice(from.as_slice()).unwrap();
}
