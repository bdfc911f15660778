//! A fetch page: where the words of a page lie.

ghost use Rattle.std.specs.Prelude.{◌≡◌, ◌≢◌, ◌≤◌, ◌<◌, ◌+◌, ◌*◌, ◌^◌, Ok, true};
ghost use Rattle.address_map.specs.Bytes.{word_loaded};
ghost use Rattle.address_map.specs.Memory.{bytes_of, place};

use address_map::{AddressMap, PAGE_SIZE, RETURN_GATE};
use arm_decode::ADDRESS_LIMIT;

/// How many words a page has.
const WORDS: usize = 1024;

/// How many positions there are, words of the address space.
const POSITIONS: usize = ADDRESS_LIMIT as usize / 4;

/// Where no page begins.
const NOWHERE: usize = 1 << 30;

/// Where the words of a page lie. No fetch page is opened on the page of the gate.
#[derive(Clone, Copy)]
pub struct FetchPage {
    /// The position of the first word.
    first: usize,
    /// Where that lies in the store.
    place: usize,
    /// What keeps apart, mostly, what is kept for words at equal places of two pages.
    stir: usize,
    pub ghost low: { first ≤ 2 ^ 30 },
    pub ghost stirred: { stir < 1024 },
}

impl FetchPage {
    ghost use Rattle.address_map.specs.declared.map.AddressMap.{AddressMap};
    ghost use Rattle.arm_step.specs.fetch_page.FetchPages.{IsOpen, IsIn};

    /// A fetch page of no page.
    #[tactic(auto, using(crate::proofs::FetchPageLemmas::Opened::none_open))]
    #[inline(always)]
    pub fn closed() -> FetchPage
        ensures { (m : AddressMap) → IsOpen (place m) result }
    {
        FetchPage {
            first: NOWHERE,
            place: 0,
            stir: 0,
        }
    }

    /// Whether it is the fetch page of a position. If it isn't it is opened there, where it can be.
    #[tactic(auto, using(crate::proofs::FetchPageLemmas::Opened::reaching))]
    #[inline(always)]
    pub fn reach(&mut self, memory: &AddressMap, at: usize) -> bool
        requires fetch_page { IsOpen (place memory.now) self.old }
        requires at { at ≤ 2 ^ 24 }
        ensures fetch_page { IsOpen (place memory.now) self.new }
        ensures there { result ≡ true → IsIn self.new at }
        ensures below { result ≡ true → at < 2 ^ 24 }
    {
        if self.holds(at) {
            return true;
        }
        self.open(memory, at)
    }

    /// Whether a position lies in it.
    #[tactic(auto, using(crate::proofs::FetchPageLemmas::Opened::reaching))]
    #[inline(always)]
    pub fn holds(&self, at: usize) -> bool
        requires { at ≤ 2 ^ 24 }
        ensures { result ≡ true → IsIn self.now at }
    {
        at.wrapping_sub(self.first) < WORDS
    }

    /// Moves to the page of a position, if that is mapped and isn't the gate's.
    #[tactic(auto, using(crate::proofs::FetchPageLemmas::Opened::opening))]
    #[cold]
    #[inline(never)]
    fn open(&mut self, memory: &AddressMap, at: usize) -> bool
        requires { IsOpen (place memory.now) self.old }
        ensures fetch_page { IsOpen (place memory.now) self.new }
        ensures there { result ≡ true → IsIn self.new at }
        ensures below { result ≡ true → at < 2 ^ 24 }
    {
        if at >= POSITIONS {
            return false;
        }
        let first = at - at % WORDS;
        let address = first as u32 * 4;
        if address == RETURN_GATE {
            return false;
        }
        match memory.translate(address) {
            Some(place) => {
                *self = FetchPage {
                    first,
                    place,
                    stir: at / WORDS * 37 % WORDS,
                };
                true
            }
            None => false,
        }
    }

    /// The word at a position.
    #[tactic(auto, using(crate::proofs::FetchPageLemmas::Opened::looking))]
    #[inline(always)]
    pub fn word(&self, memory: &AddressMap, at: usize) -> u32
        requires fetch_page { IsOpen (place memory.now) self.now }
        requires there { IsIn self.now at }
        requires below { at < 2 ^ 24 }
        ensures word { word_loaded (bytes_of memory.now) (at * 4) ≡ Ok result }
        ensures gate { at * 4 ≢ 0x03800000 }
    {
        memory.word_at(at as u32 * 4, self.place + 4 * (at - self.first))
    }

    /// A number below 1024 for a position, at which something may be kept for its word.
    #[tactic(auto, using(crate::proofs::FetchPageLemmas::Opened::kept_below))]
    #[inline(always)]
    pub fn entry(&self, at: usize) -> usize
        requires { IsIn self.now at }
        ensures { result < 1024 }
    {
        (at - self.first) ^ self.stir
    }
}
