//! Faster ways to memory for the core: bytes of a page lent where they stand, and words whose place
//! is known.

ghost use Rattle.std.specs.Prelude.{ℕ, ◌≡◌, ◌≤◌, ◌<◌, ◌+◌, ◌*◌, ◌%◌, ◌^◌, MatchOption, Some, Ok, false, length};
ghost use Rattle.address_map.specs.Bytes.{with_word_at, word_loaded};
ghost use Rattle.address_map.specs.Lent.{IsLent, any_owned};

use crate::map::AddressMap;

impl AddressMap {
    ghost use Rattle.address_map.specs.Memory.{place, is_mapped, byte_at, bytes_of, layout, class_of, is_owned};

    /// The `len` bytes from an address on, for reading, or `None` where no memory is mapped. They
    /// lie in one page, so one look-up finds them all.
    #[tactic(auto, using(crate::proofs::Lending::lending))]
    #[inline(always)]
    pub fn lend(&self, addr: u32, len: u32) -> Option<&[u8]>
        requires { addr % 4096 + len ≤ 4096 }
        ensures { MatchOption result (is_mapped self.now addr ≡ false)
            (λ bytes. IsLent (bytes_of self.now) addr len bytes.now) }
    {
        let place = self.translate(addr)?;
        Some(self.store.lend(place, len as usize))
    }

    /// The word at an address whose place in the store is known, as `translate` shows it.
    #[tactic(auto, using(crate::proofs::Loads::place_fits_word, crate::proofs::Loads::word_known))]
    #[inline(always)]
    pub fn word_at(&self, addr: u32, at: usize) -> u32
        requires aligned { addr % 4 ≡ 0 }
        requires there { place self.now addr ≡ Some at }
        ensures { word_loaded (bytes_of self.now) addr ≡ Ok result }
    {
        self.store.read_word(at)
    }

    /// Writes a word, owned or not, at an address whose place in the store is known, as `translate`
    /// shows it. The words of a page lie one after another there too.
    #[inline(always)]
    pub fn put_word_at(&mut self, addr: u32, at: usize, word: u32)
        requires aligned { addr % 4 ≡ 0 }
        requires there { place self.old addr ≡ Some at }
        ensures bytes { (a : ℕ) → byte_at self.new a ≡ with_word_at (byte_at self.old) addr word a }
        ensures layout { layout self.new ≡ layout self.old }
        ensures marks { class_of self.new ≡ class_of self.old }
    {
        self.store.write_word(at, word);
    }

    /// Whether any of `count` words of a page is owned, the first of which lies at this place of
    /// the store. The bytes of a word are owned together.
    #[tactic(auto, using(crate::proofs::Lending::plain_words))]
    #[inline(always)]
    pub fn owns_any(&self, addr: u32, at: usize, count: u32) -> bool
        requires aligned { addr % 4 ≡ 0 }
        requires page { addr % 4096 + 4 * count ≤ 4096 }
        requires there { place self.now addr ≡ Some at }
        ensures { result ≡ any_owned (is_owned self.now) addr count }
    {
        // Four words share a byte of the marks, and mostly all of them are plain.
        let end = (at + 4 * count as usize + 15) / 16;
        if self.marks.are_plain(at / 16, end) {
            return false;
        }
        self.owns_one_of(addr, count)
    }

    /// Whether any of `count` words is owned, each asked for by itself.
    #[tactic(auto, using(crate::proofs::Lending::owning))]
    fn owns_one_of(&self, addr: u32, count: u32) -> bool
        requires { addr + 4 * count ≤ 2 ^ 26 }
        ensures { result ≡ any_owned (is_owned self.now) addr count }
    {
        for index in 0..count {
            if self.owns(addr + 4 * index) {
                return true;
            }
        }
        false
    }
}
