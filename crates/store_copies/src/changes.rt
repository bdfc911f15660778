//! The words of memory that differ.

ghost use Rattle.std.specs.Prelude.{◌≡◌, ◌≤◌, ◌<◌, ◌+◌, ◌*◌, ◌%◌, ◌^◌, ◌∷◌, ◌++◌, [], List, length, take};
ghost use Rattle.address_map.specs.Bytes.{word_at};
ghost use Rattle.address_map.specs.Lent.{IsLent};
ghost use Rattle.address_map.specs.Memory.{byte_at, bytes_of};
ghost use Rattle.swi_dispatch_guest.specs.GuestState.{state_of};
ghost use Rattle.store_copies.specs.Words.{AreListedWithin, IsSummary, all_changes, all_pages, word_changes_below, is_shown_elsewhere};

use crate::lanes::{LANE_WORDS, PAGE_WORDS, has_same_lane, has_same_page};
use crate::pages::{PAGES, past_unmapped};
use address_map::AddressMap;
use arrayvec::ArrayVec;
use profile::memory_map::{ERROR_BLOCK, PAGE_SIZE};
use swi_dispatch_guest::Machine;

/// How many of the words that differ are kept.
pub const MOST_CHANGES: usize = 16;

/// How many bytes an error block has.
const ERROR_BLOCK_BYTES: u32 = 256;

/// A word that differs: its address, its old value and its new one.
#[derive(Clone, Copy, Default)]
pub struct WordChange {
    pub at: u32,
    pub old: u32,
    pub new: u32,
}

/// The words that differ, by address: the first 16 of them, and how many there are.
#[derive(Clone, Drop)]
pub struct WordChanges {
    pub first: ArrayVec<WordChange, MOST_CHANGES>,
    pub count: u32,
}

/// Pages from one up to another.
#[derive(Clone, Copy)]
pub struct PageRange {
    pub first: u32,
    pub end: u32,
}

impl PageRange {
    /// All pages of memory.
    pub fn all() -> PageRange
        ensures { result ≡ all_pages }
    {
        PageRange {
            first: 0,
            end: PAGES,
        }
    }
}

/// The words of a machine's mapped memory that differ from those of another memory, in which a word that
/// isn't mapped counts as 0; but not those of the error block where an error is shown.
pub fn changed_words(before: &AddressMap, machine: &Machine, has_error: bool) -> WordChanges
    ensures { IsSummary result (all_changes (is_shown_elsewhere has_error)
        (bytes_of before.now) (state_of machine.now.guest).store.bytes) }
{
    let pages = PageRange::all();
    changed_words_in(before, machine, has_error, pages)
}

/// The same, where all of these lie in some pages.
pub fn changed_words_in(
    before: &AddressMap,
    machine: &Machine,
    has_error: bool,
    pages: PageRange,
) -> WordChanges
    requires { AreListedWithin (is_shown_elsewhere has_error)
        (bytes_of before.now) (state_of machine.now.guest).store.bytes pages }
    ensures { IsSummary result (all_changes (is_shown_elsewhere has_error)
        (bytes_of before.now) (state_of machine.now.guest).store.bytes) }
{
    let after = machine.memory();
    let mut changes = WordChanges::none();
    let mut page = pages.first.min(PAGES);
    let end = pages.end.min(PAGES);
    while page < end {
        changes.add_page(before, after, has_error, page);
        page = past_unmapped(machine, page + 1);
    }
    changes
}

impl WordChanges {
    fn none() -> WordChanges
        ensures { IsSummary result [] }
    {
        WordChanges {
            first: ArrayVec::new(),
            count: 0,
        }
    }

    // The words of one page more.
    fn add_page(&mut self, before: &AddressMap, after: &AddressMap, has_error: bool, page: u32)
        requires page { page < 16384 }
        requires summary { IsSummary self.old (word_changes_below (is_shown_elsewhere has_error)
            (bytes_of before.now) (bytes_of after.now) (1024 * page)) }
        ensures { IsSummary self.new (word_changes_below (is_shown_elsewhere has_error)
            (bytes_of before.now) (bytes_of after.now) (1024 * (page + 1))) }
    {
        let at = PAGE_SIZE * page;
        let Some(new) = after.lend(at, PAGE_SIZE) else {
            return;
        };
        match before.lend(at, PAGE_SIZE) {
            Some(old) => self.add_lanes(before, after, has_error, page, old, new),
            None => self.add_words(before, after, has_error, PAGE_WORDS * page, PAGE_WORDS),
        }
    }

    // The words of one page more, of which these bytes were and are: those of each lane that differs,
    // and mostly none does.
    fn add_lanes(
        &mut self,
        before: &AddressMap,
        after: &AddressMap,
        has_error: bool,
        page: u32,
        old: &[u8],
        new: &[u8],
    )
        requires page { page < 16384 }
        requires old { IsLent (bytes_of before.now) (4096 * page) 4096 old.now }
        requires new { IsLent (bytes_of after.now) (4096 * page) 4096 new.now }
        requires summary { IsSummary self.old (word_changes_below (is_shown_elsewhere has_error)
            (bytes_of before.now) (bytes_of after.now) (1024 * page)) }
        ensures { IsSummary self.new (word_changes_below (is_shown_elsewhere has_error)
            (bytes_of before.now) (bytes_of after.now) (1024 * (page + 1))) }
    {
        if has_same_page(old, new) {
            return;
        }
        for lane in 0..PAGE_WORDS / LANE_WORDS {
            if !has_same_lane(old, new, lane) {
                let first = PAGE_WORDS * page + LANE_WORDS * lane;
                self.add_words(before, after, has_error, first, LANE_WORDS);
            }
        }
    }

    // So many words more.
    fn add_words(
        &mut self,
        before: &AddressMap,
        after: &AddressMap,
        has_error: bool,
        first: u32,
        count: u32,
    )
        requires words { first + count ≤ 2 ^ 24 }
        requires summary { IsSummary self.old (word_changes_below (is_shown_elsewhere has_error)
            (bytes_of before.now) (bytes_of after.now) first) }
        ensures { IsSummary self.new (word_changes_below (is_shown_elsewhere has_error)
            (bytes_of before.now) (bytes_of after.now) (first + count)) }
    {
        for index in 0..count {
            self.add_word(before, after, has_error, first + index);
        }
    }

    // One word more, if it differs.
    fn add_word(&mut self, before: &AddressMap, after: &AddressMap, has_error: bool, number: u32)
        requires number { number < 2 ^ 24 }
        requires summary { IsSummary self.old (word_changes_below (is_shown_elsewhere has_error)
            (bytes_of before.now) (bytes_of after.now) number) }
        ensures { IsSummary self.new (word_changes_below (is_shown_elsewhere has_error)
            (bytes_of before.now) (bytes_of after.now) (number + 1)) }
    {
        let at = 4 * number;
        let old = word_in(before, at);
        let new = word_in(after, at);
        if old != new && after.translate(at).is_some() && !is_shown_elsewhere(has_error, at) {
            self.add(WordChange { at, old, new });
        }
    }

    fn add(&mut self, change: WordChange)
        requires { self.old.count < 2 ^ 24 }
        ensures { (all : List WordChange) → IsSummary self.old all → IsSummary self.new (all ++ change ∷ []) }
    {
        if self.first.len() < MOST_CHANGES {
            self.first.push(change);
        }
        self.count += 1;
    }
}

// The word at an address, 0 where no memory is mapped.
fn word_in(memory: &AddressMap, at: u32) -> u32
    requires { at % 4 ≡ 0 }
    ensures { result ≡ word_at (byte_at memory.now) at }
{
    match memory.load_word(at) {
        Ok(word) => word,
        Err(_) => 0,
    }
}

// Whether other lines of a step show a word.
fn is_shown_elsewhere(has_error: bool, at: u32) -> bool
    ensures { result ≡ is_shown_elsewhere has_error at }
{
    has_error && at >= ERROR_BLOCK && at - ERROR_BLOCK < ERROR_BLOCK_BYTES
}
