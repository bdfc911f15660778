//! Pages of addresses: which frame of the store each has, and how pages are mapped and taken away.

ghost use Rattle.std.specs.Prelude.{ℕ, None, false, ◌≡◌, ◌≢◌, ◌≤◌, ◌<◌, ◌+◌, ◌*◌, ◌%◌, ◌^◌, ◌||◌, ◌&&◌, not, IsTrue, MatchOption, All, length};
ghost use Rattle.std.specs.List.{AllPairs};
ghost use Rattle.address_map.specs.Bytes.{in_range, AreMapped, AreUnmapped, with_zeros_at};
ghost use Rattle.address_map.specs.Records.{meets_record, HasNoAnchor, with_plain_at};

use crate::frame::PageFrame;
use crate::map::{AddressMap, MOST_FRAMES, Span};
use arrayvec::ArrayVec;
use raw_store::{ADDRESS_LIMIT, PAGE_SIZE};

/// How many bytes the marks of a page take, two bits for each word.
pub(crate) const MARKS_IN_PAGE: usize = 256;

impl AddressMap {
    ghost use Rattle.address_map.specs.Memory.{IsSpan, StaysInPlace, place, is_mapped, byte_at, free_pages, regions, class_of, is_owned};

    /// The pages that are left to be mapped.
    #[tactic(auto, unfolding(crate::specs::Memory::free_pages))]
    pub fn free_pages(&self) -> u32
        ensures { result ≡ free_pages self.now }
    {
        self.free.len() as u32
    }

    /// Where in the store the byte of an address lies, or `None` where no memory is mapped.
    #[inline(always)]
    pub fn translate(&self, addr: u32) -> Option<usize>
        ensures { result ≡ place self.now addr }
    {
        if addr >= ADDRESS_LIMIT {
            return None;
        }
        self.place_of(addr)
    }

    /// The same for an address that has 26 bits; whether it has isn't asked again.
    #[inline(always)]
    pub(crate) fn place_of(&self, addr: u32) -> Option<usize>
        requires { addr < 2 ^ 26 }
        ensures { result ≡ place self.now addr }
    {
        let frame = self.frames.get((addr / PAGE_SIZE) as usize).frame()?;
        Some((PAGE_SIZE * frame as u32 + addr % PAGE_SIZE) as usize)
    }

    /// All bytes of the page that an address lies in, or `None` where no memory is mapped.
    pub(crate) fn page_at(&self, addr: u32) -> Option<Span>
        ensures { MatchOption result (place self.now addr ≡ None) (λ page.
            (page.addr ≤ addr) × (addr < page.addr + page.len) ×
            IsSpan self.now page.addr page.place page.len) }
    {
        let place = self.translate(addr)?;
        let offset = addr % PAGE_SIZE;
        Some(Span {
            addr: addr - offset,
            place: place - offset as usize,
            len: PAGE_SIZE,
        })
    }

    /// Maps `count` pages from the address `base` on, which are zero then.
    pub fn map_pages(&mut self, base: u32, count: u32)
        requires aligned { base % 4096 ≡ 0 }
        requires below { base + 4096 * count ≤ 2 ^ 26 }
        requires unmapped { AreUnmapped (is_mapped self.old) base (4096 * count) }
        requires pages { count ≤ free_pages self.old }
        ensures mapping { (a : ℕ) → is_mapped self.new a
            ≡ (in_range base (4096 * count) a || is_mapped self.old a) }
        ensures stays { StaysInPlace self.old self.new }

        // The bytes of the new pages are 0, as those of addresses that are not mapped.
        ensures bytes { (a : ℕ) → byte_at self.new a ≡ byte_at self.old a }
        ensures pages { free_pages self.new + count ≡ free_pages self.old }
        ensures regions { regions self.new ≡ regions self.old }
        ensures marks { class_of self.new ≡ class_of self.old }
        ensures owned { is_owned self.new ≡ is_owned self.old }
    {
        for done in 0..count {
            self.map_page(base + PAGE_SIZE * done);
        }
    }

    /// Maps the page at an address. Its bytes are made zero and its words plain, since another page
    /// may have had them.
    fn map_page(&mut self, addr: u32)
        requires aligned { addr % 4096 ≡ 0 }
        requires below { addr < 2 ^ 26 }
        requires unmapped { is_mapped self.old addr ≡ false }
        requires pages { 1 ≤ free_pages self.old }
        ensures mapping { (a : ℕ) → is_mapped self.new a ≡ (in_range addr 4096 a || is_mapped self.old a) }
        ensures stays { StaysInPlace self.old self.new }
        ensures bytes { (a : ℕ) → byte_at self.new a ≡ byte_at self.old a }
        ensures pages { free_pages self.new + 1 ≡ free_pages self.old }
        ensures regions { regions self.new ≡ regions self.old }
        ensures marks { (a : ℕ) → class_of self.new a ≡ class_of self.old a }
    {
        let frame = self.free.pop().unwrap();
        let place = (PAGE_SIZE * frame as u32) as usize;
        self.store.write_zeros(place, PAGE_SIZE as usize);
        self.marks
            .clear(MARKS_IN_PAGE * frame as usize, MARKS_IN_PAGE);
        self.frames
            .set((addr / PAGE_SIZE) as usize, PageFrame::of(frame));
    }

    /// Takes away the `count` pages from the address `base` on, which can be mapped anew then.
    pub fn unmap_pages(&mut self, base: u32, count: u32)
        requires aligned { base % 4096 ≡ 0 }
        requires mapped { AreMapped (is_mapped self.old) base (4096 * count) }
        requires unrecorded { meets_record (regions self.old) base (4096 * count) ≡ false }
        requires unanchored { HasNoAnchor (class_of self.old) base (4096 * count) }
        ensures mapping { (a : ℕ)
            → is_mapped self.new a ≡ (is_mapped self.old a && not (in_range base (4096 * count) a)) }
        ensures stays { StaysInPlace self.old self.new }
        ensures bytes { (a : ℕ) → byte_at self.new a ≡ with_zeros_at (byte_at self.old) base
            (4096 * count) a }
        ensures pages { free_pages self.new ≡ free_pages self.old + count }
        ensures regions { regions self.new ≡ regions self.old }
        ensures marks { (a : ℕ) → class_of self.new a ≡ with_plain_at (class_of self.old) base
            (4096 * count) a }
    {
        for done in 0..count {
            self.unmap_page(base + PAGE_SIZE * done);
        }
    }

    /// Takes away the page at an address; its frame is free then.
    fn unmap_page(&mut self, addr: u32)
        requires aligned { addr % 4096 ≡ 0 }
        requires mapped { IsTrue (is_mapped self.old addr) }
        ensures mapping { (a : ℕ) → is_mapped self.new a
            ≡ (is_mapped self.old a && not (in_range addr 4096 a)) }
        ensures stays { StaysInPlace self.old self.new }
        ensures bytes { (a : ℕ) → byte_at self.new a ≡ with_zeros_at (byte_at self.old) addr 4096 a }
        ensures pages { free_pages self.new ≡ free_pages self.old + 1 }
        ensures regions { regions self.new ≡ regions self.old }
        ensures marks { (a : ℕ) → class_of self.new a ≡ with_plain_at (class_of self.old) addr 4096 a }
    {
        let page = (addr / PAGE_SIZE) as usize;
        let frame = self.frames.get(page).frame().unwrap();
        self.frames.set(page, PageFrame::none());
        self.free.push(frame);
    }
}

/// How many pages the address space has.
pub(crate) fn page_count() -> usize
    ensures { 4096 * result ≡ 2 ^ 26 }
{
    (ADDRESS_LIMIT / PAGE_SIZE) as usize
}

/// The frames of a store of that many pages, all free. The last of the list is given first, so the
/// list goes down.
pub(crate) fn all_frames(pages: u32) -> ArrayVec<u16, MOST_FRAMES>
    requires { pages ≤ 1024 }
    ensures len { length result.items ≡ pages }
    ensures within { All (λ frame. frame < pages) result.items }
    ensures apart { AllPairs ◌≢◌ result.items }
{
    let mut frames = ArrayVec::new();
    let mut frame = pages;
    while frame > 0 {
        frame -= 1;
        frames.push(frame as u16);
    }
    frames
}
