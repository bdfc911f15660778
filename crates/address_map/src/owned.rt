//! What the store calls use a byte for: its class, whether it is theirs, and whether a range holds
//! an anchor.

ghost use Rattle.std.specs.Prelude.{◌≡◌, ◌≤◌, ◌+◌, ◌-◌, ◌/◌, ◌%◌, ◌^◌, false, length};
ghost use Rattle.address_map.specs.Marks.{class_at};
ghost use Rattle.address_map.specs.Records.{HasNoAnchor, anchor_among};

use crate::class::Class;
use crate::map::AddressMap;
use raw_store::{ADDRESS_LIMIT, PAGE_SIZE};

impl AddressMap {
    ghost use Rattle.address_map.specs.Memory.{anchor_of, class_of, is_owned};

    /// What the store calls use the byte at an address for.
    #[inline(always)]
    pub fn class(&self, addr: u32) -> Class
        ensures { result ≡ class_of self.now addr }
    {
        match self.translate(addr) {
            Some(place) => self.class_at(place),
            None => Class::Plain,
        }
    }

    /// Whether the store calls keep their records in the byte at an address, which a guest's stores
    /// must leave alone.
    #[inline(always)]
    #[tactic(auto, unfolding(crate::specs::Memory::is_owned))]
    pub fn owns(&self, addr: u32) -> bool
        ensures { result ≡ is_owned self.now addr }
    {
        !self.class(addr).is_plain()
    }

    /// What the store calls use the byte at a place in the store for.
    #[inline(always)]
    pub(crate) fn class_at(&self, place: usize) -> Class
        requires { place + 1 ≤ length self.now.store.items }
        ensures { result ≡ class_at self.now.marks (place / 4) }
    {
        self.marks.class(place / 4)
    }

    /// Whether the anchor of a flex block has a byte in the `len` bytes from `at` on.
    pub fn anchor_in(&self, at: u32, len: u32) -> bool
        ensures { result ≡ anchor_among (anchor_of self.now) at len }
    {
        let end = (at as u64 + len as u64).min(ADDRESS_LIMIT as u64) as u32;
        let mut addr = at;
        while addr < end {
            let next = end.min(addr - addr % PAGE_SIZE + PAGE_SIZE);
            if self.page_holds_anchor(addr, next) {
                return true;
            }
            addr = next;
        }
        false
    }

    /// Whether an anchor has a byte from `from` on and below `end`; all of these bytes lie in one
    /// page.
    #[inline(always)]
    fn page_holds_anchor(&self, from: u32, end: u32) -> bool
        requires page { from % 4096 + (end - from) ≤ 4096 }
        requires above { from ≤ end }
        requires end { end ≤ 2 ^ 26 }
        ensures { result ≡ anchor_among (anchor_of self.now) from (end - from) }
    {
        self.may_hold_anchor(from, end - from) && self.holds_anchor_between(from, end)
    }

    /// Whether the words of some bytes of a page must be looked at one by one. Mostly not: their
    /// marks, four to a byte, say that none is an anchor's.
    #[inline(always)]
    fn may_hold_anchor(&self, addr: u32, len: u32) -> bool
        requires page { addr % 4096 + len ≤ 4096 }
        ensures { result ≡ false → HasNoAnchor (class_of self.now) addr len }
    {
        match self.translate(addr) {
            Some(place) => {
                // Four words share a byte of the marks.
                let end = (place + len as usize + 15) / 16;
                !self.marks.are_plain_or_heap(place / 16, end)
            }
            None => false,
        }
    }

    /// Whether an anchor has a byte from `from` on and below `end`, each word asked for by itself.
    fn holds_anchor_between(&self, from: u32, end: u32) -> bool
        requires { end ≤ 2 ^ 26 }
        ensures { result ≡ anchor_among (anchor_of self.now) from (end - from) }
    {
        let mut addr = from;
        while addr < end {
            if self.class(addr).is_anchor() {
                return true;
            }
            addr = addr - addr % 4 + 4;
        }
        false
    }
}
