//! WordWatches: words of memory, where a change of one ends a run.

ghost use Rattle.std.specs.Prelude.{◌≡◌, ◌==◌, ◌↔◌, ◌<◌, ◌≤◌, [], IsTrue, IfSome, length};
ghost use Rattle.std.specs.List.{position};
ghost use Rattle.debugger.specs.AddressMapMemory.{bytes_of};
ghost use Rattle.profile.specs.Firsts.{first_of};
ghost use Rattle.profile.specs.Outcome.{Leaves};
ghost use Rattle.profile.specs.Output.{Writes};
ghost use Rattle.command_shell.specs.WordWatches.{change_of_word, hit_unless_same, is_unchanged_word, mapped_word, mapped_word_text, watch_error_name, watch_change_text, was_text, watch_text, watched_text, watched_words};

use arrayvec::ArrayVec;
use command_shell_lines::WordAddress;
use debugger::AddressMap;
use profile::{HexText, Sink, WriteFault, push_all, push_parts};
use std::marker::Model;

/// How many watches there can be.
pub const MOST_WATCHES: usize = 4;

/// Why a watch is not taken, or not taken away.
#[derive(Clone, Copy)]
pub enum WordWatchError {
    /// There are 4 other watches already.
    WatchTableFull,
    /// There is no watch at the address.
    NoWatch,
}

impl WordWatchError {
    /// The refusal's name, as a script prints it.
    pub fn name(self) -> &'static [u8]
        ensures { result.now ≡ watch_error_name self }
    {
        match self {
            WordWatchError::WatchTableFull => b"WatchTableFull",
            WordWatchError::NoWatch => b"NoWatch",
        }
    }
}

/// A watched word that has changed: what it is now, and what it was, where it is mapped.
#[derive(Clone, Copy)]
pub struct WatchHit {
    pub address: u32,
    pub now: Option<u32>,
    pub was: Option<u32>,
}

/// A watched word as it is before a step, where it is mapped.
#[derive(Clone, Copy, Default)]
pub struct WatchedWord {
    pub address: u32,
    pub was: Option<u32>,
}

/// The watched words of a debugger, at most 4, by their addresses.
#[derive(Drop)]
pub struct WordWatches {
    addresses: ArrayVec<u32, MOST_WATCHES>,
}

impl Model for WordWatches {
    ghost use Rattle.std.specs.Prelude.{ℕ, List, ◌≤◌, length};

    ghost Value = { List ℕ };

    ghost view = { λ w. w.addresses.items };

    ghost invariant = { λ w. length w.addresses.items ≤ 4 };
}

impl WordWatches {
    ghost use Rattle.command_shell.specs.Run.{is_among};
    ghost use Rattle.command_shell.specs.WordWatches.{with_word_watch, without_word_watch};

    /// No watch.
    pub fn new() -> WordWatches
        ensures { result ≡ [] }
    {
        WordWatches {
            addresses: ArrayVec::new(),
        }
    }

    /// Whether there is none.
    pub fn is_empty(&self) -> bool
        ensures { IsTrue result ↔ (self.now ≡ []) }
    {
        self.addresses.is_empty()
    }

    /// One more. A word that is watched already is watched once.
    ///
    /// # Errors
    ///
    /// `WatchTableFull` where 4 others are there; the watches stay then.
    pub fn add(&mut self, address: WordAddress) -> Result<(), WordWatchError>
        ensures { Leaves self.old (with_word_watch self.old address) result self.new }
    {
        let address = address.address();
        if self.has(address) {
            return Ok(());
        }
        if self.addresses.is_full() {
            return Err(WordWatchError::WatchTableFull);
        }
        self.addresses.push(address);
        Ok(())
    }

    /// One less.
    ///
    /// # Errors
    ///
    /// `NoWatch` where the word is not watched; the watches stay then.
    pub fn remove(&mut self, address: WordAddress) -> Result<(), WordWatchError>
        ensures { Leaves self.old (without_word_watch self.old address) result self.new }
    {
        self.remove_at(address.address())
    }

    fn remove_at(&mut self, address: u32) -> Result<(), WordWatchError>
        ensures { Leaves self.old (without_word_watch self.old address) result self.new }
    {
        let place = self.place_of(address).ok_or(WordWatchError::NoWatch)?;
        self.addresses.remove(place);
        Ok(())
    }

    fn place_of(&self, address: u32) -> Option<usize>
        ensures place { result ≡ position (λ w. w == address) self.now }
        ensures within { IfSome result (λ i. i < length self.now) }
    {
        self.addresses.iter().position(|at| *at == address)
    }

    #[tactic(auto, unfolding(crate::specs::WordWatches::is_among))]
    fn has(&self, address: u32) -> bool
        ensures { result ≡ is_among self.now address }
    {
        self.addresses.iter().any(|at| *at == address)
    }

    /// The watched words as they are in a memory.
    pub fn words(&self, memory: &AddressMap) -> ArrayVec<WatchedWord, MOST_WATCHES>
        ensures { result.items ≡ watched_words self.now (bytes_of memory.now) }
    {
        words_at(self.addresses.as_slice(), memory)
    }
}

// Some words as they are in a memory.
fn words_at(addresses: &[u32], memory: &AddressMap) -> ArrayVec<WatchedWord, MOST_WATCHES>
    requires { length addresses.now ≤ 4 }
    ensures { result.items ≡ watched_words addresses.now (bytes_of memory.now) }
{
    let mut words = ArrayVec::new();
    for address in addresses {
        words.push(WatchedWord {
            address: *address,
            was: mapped_word(memory, *address),
        });
    }
    words
}

/// The first of some words that is another in a memory than it was.
#[tactic(auto, using(crate::proofs::WatchLemmas::first_steps))]
pub fn first_change(words: &[WatchedWord], memory: &AddressMap) -> Option<WatchHit>
    ensures { result ≡ first_of (change_of_word (bytes_of memory.now)) words.now }
{
    for word in words {
        if let Some(hit) = change_of_word(word, memory) {
            return Some(hit);
        }
    }
    None
}

fn change_of_word(word: &WatchedWord, memory: &AddressMap) -> Option<WatchHit>
    ensures { result ≡ change_of_word (bytes_of memory.now) word.now }
{
    let now = mapped_word(memory, word.address);
    if is_unchanged_word(word.was, now) {
        return None;
    }
    Some(WatchHit {
        address: word.address,
        now,
        was: word.was,
    })
}

fn is_unchanged_word(was: Option<u32>, now: Option<u32>) -> bool
    ensures { result ≡ is_unchanged_word was now }
{
    match (was, now) {
        (None, None) => true,
        (Some(was), Some(now)) => was == now,
        _ => false,
    }
}

/// The word at an address, where memory is mapped.
pub fn mapped_word(memory: &AddressMap, address: u32) -> Option<u32>
    ensures { result ≡ mapped_word (bytes_of memory.now) address }
{
    memory.load_word(address).ok()
}

/// `stop Watch &9000 00000005 was 00000000`.
pub fn push_watch<W: Sink>(sink: &mut W, hit: WatchHit) -> Result<(), WriteFault>
    ensures { Writes W.contents W.has_failed sink.old sink.new result (watch_text hit) }
{
    push_watched(sink, hit.address)?;
    push_change(sink, hit)
}

fn push_watched<W: Sink>(sink: &mut W, address: u32) -> Result<(), WriteFault>
    ensures { Writes W.contents W.has_failed sink.old sink.new result (watched_text address) }
{
    push_parts(
        sink,
        &[
            b"stop Watch &".as_slice(),
            HexText::number(address).as_slice(),
        ],
    )
}

fn push_change<W: Sink>(sink: &mut W, hit: WatchHit) -> Result<(), WriteFault>
    ensures { Writes W.contents W.has_failed sink.old sink.new result (watch_change_text hit) }
{
    push_all(sink, b" ")?;
    push_mapped_word(sink, hit.now)?;
    push_was(sink, hit.was)
}

fn push_was<W: Sink>(sink: &mut W, was: Option<u32>) -> Result<(), WriteFault>
    ensures { Writes W.contents W.has_failed sink.old sink.new result (was_text was) }
{
    push_all(sink, b" was ")?;
    push_mapped_word(sink, was)?;
    push_all(sink, b"\n")
}

fn push_mapped_word<W: Sink>(sink: &mut W, word: Option<u32>) -> Result<(), WriteFault>
    ensures { Writes W.contents W.has_failed sink.old sink.new result (mapped_word_text word) }
{
    match word {
        None => push_all(sink, b"--------"),
        Some(word) => push_all(sink, HexText::word(word).as_slice()),
    }
}
