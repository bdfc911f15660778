//! How often steps were taken at each word of memory, while they are counted.

ghost use Rattle.std.specs.Prelude.{◌≡◌, OnErr, OnOk, IfOk, replicate};
ghost use Rattle.debug_tables.specs.counts.Counts.{no_counts, no_pages, zero_counts};

use profile::memory_map::ADDRESS_LIMIT;
use std::alloc::{AllocError, Global};
use std::marker::Model;

/// How many words a page of counts has: those of 4 KB.
const PAGE_WORDS: usize = 1024;

/// How many pages there are: those of the addresses below 2^26.
const PAGES: usize = (ADDRESS_LIMIT / 4) as usize / PAGE_WORDS;

/// How often steps were taken at the words of a page; nothing where none was taken there yet.
#[derive(Drop)]
pub(crate) struct CountPage {
    words: Vec<u32>,
}

impl Model for CountPage {
    ghost use Rattle.std.specs.Prelude.{ℕ, List};

    ghost Value = { List ℕ };

    ghost view = { λ p. p.words.items };
}

impl CountPage {
    ghost use Rattle.std.specs.Prelude.{slice_index_or};
    ghost use Rattle.debug_tables.specs.counts.Counts.{page_counted};

    // How often steps were taken at a word.
    fn times(&self, word: usize) -> u32
        ensures { result ≡ slice_index_or self.now word 0 }
    {
        match self.words.get(word) {
            Some(times) => *times,
            None => 0,
        }
    }

    // One step more at a word.
    #[tactic(auto, using(crate::proofs::CountsLemmas::CountLemmas::counted_past))]
    fn count(&mut self, alloc: Global, word: usize) -> Result<(), AllocError>
        ensures counted { OnOk result (self.new ≡ page_counted self.old word) }
        ensures same { OnErr result (self.new ≡ self.old) }
    {
        if self.words.as_slice().is_empty() {
            self.words = zero_counts(alloc)?;
        }
        let times = self.times(word).saturating_add(1);
        if word < self.words.as_slice().len() {
            self.words[word] = times;
        }
        Ok(())
    }
}

/// Counts of the steps that are taken at each word of memory, up to 2^32 - 1 each, where steps are
/// counted. They take a word of host memory for each word of those pages of 4 KB in which steps were
/// taken, at the first step there.
#[derive(Drop)]
pub struct StepCounts {
    alloc: Global,
    is_on: bool,
    pages: Vec<CountPage>,
}

impl Model for StepCounts {
    ghost use Rattle.debug_tables.specs.counts.Counts.{CountTable};

    ghost Value = { CountTable };

    ghost view = { λ c. record { is_on = c.is_on; pages = c.pages.items } };
}

impl StepCounts {
    ghost use Rattle.debug_tables.specs.counts.Counts.{counts_begun, counts_stopped, step_counted, times_at};

    /// No step was counted, and none is.
    pub fn new(alloc: Global) -> StepCounts
        ensures { result ≡ no_counts }
    {
        StepCounts {
            alloc,
            is_on: false,
            pages: Vec::new(alloc),
        }
    }

    /// Whether steps are counted.
    pub fn is_on(&self) -> bool
        ensures { result ≡ self.now.is_on }
    {
        self.is_on
    }

    /// From now on steps are counted; none has been.
    ///
    /// # Errors
    ///
    /// Memory ran out; all stays then.
    pub fn begin(&mut self) -> Result<(), AllocError>
        ensures begun { OnOk result (self.new ≡ counts_begun) }
        ensures same { OnErr result (self.new ≡ self.old) }
    {
        let pages = no_pages(self.alloc)?;
        self.pages = pages;
        self.is_on = true;
        Ok(())
    }

    /// From now on steps are no longer counted; those that were stay.
    pub fn stop(&mut self)
        ensures { self.new ≡ counts_stopped self.old }
    {
        self.is_on = false;
    }

    /// Counts a step at an address, where steps are counted.
    ///
    /// # Errors
    ///
    /// Memory ran out.
    #[tactic(auto, using(crate::proofs::CountsLemmas::CountLemmas::pages_past))]
    pub fn count(&mut self, address: u32) -> Result<(), AllocError>
        ensures { OnOk result (self.new ≡ step_counted self.old address) }
    {
        if !self.is_on {
            return Ok(());
        }
        let word = (address / 4) as usize;
        let page = word / PAGE_WORDS;
        if page >= self.pages.len() {
            return Ok(());
        }
        self.pages[page].count(self.alloc, word % PAGE_WORDS)
    }

    /// How often steps were taken at the word of an address.
    pub fn times(&self, address: u32) -> u32
        ensures { result ≡ times_at self.now address }
    {
        let word = (address / 4) as usize;
        match self.pages.get(word / PAGE_WORDS) {
            Some(page) => page.times(word % PAGE_WORDS),
            None => 0,
        }
    }
}

// The counts of a page at whose words no step was taken.
fn zero_counts(alloc: Global) -> Result<Vec<u32>, AllocError>
    ensures { IfOk result (λ words. words.items ≡ zero_counts) }
{
    zeros(alloc, PAGE_WORDS)
}

fn zeros(alloc: Global, count: usize) -> Result<Vec<u32>, AllocError>
    ensures { IfOk result (λ words. words.items ≡ replicate count 0) }
{
    vec![in alloc; 0u32; count]
}

// Pages at which no step was taken, of all addresses.
fn no_pages(alloc: Global) -> Result<Vec<CountPage>, AllocError>
    ensures { IfOk result (λ pages. pages.items ≡ no_pages) }
{
    let mut pages = Vec::new(alloc);
    for _page in 0..PAGES {
        pages.push(CountPage {
            words: Vec::new(alloc),
        })?;
    }
    Ok(pages)
}
