//! Watches: a run stops where a byte changes, or where an instruction loads a word or stores to it.

ghost use Rattle.std.specs.Prelude.{◌≡◌, ◌++◌, ◌↔◌, [], IsTrue, IfOk, OnOk};
ghost use Rattle.std.specs.List.{position};
ghost use Rattle.address_map.specs.Memory.{bytes_of};
ghost use Rattle.address_map.specs.Bytes.{byte_loaded};
ghost use Rattle.profile.specs.Outcome.{Leaves};
ghost use Rattle.gdb_machine.specs.Watches.{byte_seen as byte_seen_shown, bytes_of_watch, bytes_seen, first_changed as changed_shown, is_byte_changed as has_changed_shown, is_same_kind as is_same_shown, is_struck as is_struck_shown, loaded_byte, place_of_watch, reaches as reaches_shown, struck_place, watch_place, watched_bytes, with_watch, without_watch};

use address_map::AddressMap;
use arm_core::Cpu;
use arrayvec::ArrayVec;
use gdb_packets::ByteRange;
use std::alloc::{AllocError, Global};
use std::marker::Model;
use trace_effects::{Cause, StoredWords, loaded_words, stored_words};

/// The most watches.
const MOST_WATCHES: usize = 8;

/// The most bytes of a watch.
const MOST_WATCHED: u32 = 64;

/// Why a watch is not set.
#[derive(Clone, Copy)]
pub enum WatchError {
    /// It has no byte, or more than 64.
    BadLength,
    /// There are as many as there can be.
    WatchTableFull,
}

/// What strikes a watch.
#[derive(Clone, Copy, Default)]
pub enum WatchKind {
    /// A change of one of its bytes.
    #[default]
    Store,
    /// An instruction that loads a word with one of its bytes.
    Load,
    /// Either, and an instruction that stores to such a word.
    Access,
}

/// A watch: what strikes it, and its bytes.
#[derive(Clone, Copy, Default)]
pub struct Watch {
    pub kind: WatchKind,
    pub range: ByteRange,
}

/// Where a watch is struck.
#[derive(Clone, Copy)]
pub struct WatchedPlace {
    pub kind: WatchKind,
    pub address: u32,
}

/// A byte whose change strikes a watch, and its value; none where no memory is mapped.
#[derive(Clone, Copy)]
pub struct SeenByte {
    pub place: WatchedPlace,
    pub value: Option<u8>,
}

/// The watches, at most 8.
#[derive(Drop)]
pub struct Watches {
    watches: ArrayVec<Watch, MOST_WATCHES>,
}

impl Model for Watches {
    ghost use Rattle.std.specs.Prelude.{List};
    ghost use Rattle.gdb_machine.specs.declared.watches.Watch.{Watch};

    ghost Value = { List Watch };

    ghost view = { λ w. w.watches.items };
}

impl Watches {
    /// No watch.
    pub fn new() -> Watches
        ensures { result ≡ [] }
    {
        Watches {
            watches: ArrayVec::new(),
        }
    }

    /// Whether there is none.
    pub fn is_empty(&self) -> bool
        ensures { IsTrue result ↔ (self.now ≡ []) }
    {
        self.watches.is_empty()
    }

    /// One more, of 1 to 64 bytes. One that is there already is there once.
    ///
    /// # Errors
    ///
    /// `BadLength`, else `WatchTableFull` where 8 others are there.
    pub fn add(&mut self, watch: Watch) -> Result<(), WatchError>
        ensures { Leaves self.old (with_watch self.old watch) result self.new }
    {
        if watch.range.count == 0 || watch.range.count > MOST_WATCHED {
            return Err(WatchError::BadLength);
        }
        if self.place_of(watch).is_some() {
            return Ok(());
        }
        if self.watches.len() == MOST_WATCHES {
            return Err(WatchError::WatchTableFull);
        }
        self.watches.push(watch);
        Ok(())
    }

    /// One less, where it is there.
    pub fn remove(&mut self, watch: Watch)
        ensures { self.new ≡ without_watch self.old watch }
    {
        if let Some(place) = self.place_of(watch) {
            self.watches.remove(place);
        }
    }

    fn place_of(&self, watch: Watch) -> Option<usize>
        ensures { result ≡ watch_place self.now watch }
    {
        self.watches.iter().position(|other| is_same_kind(other.kind, watch.kind)
            && (other.range.start == watch.range.start && other.range.count == watch.range.count))
    }

    /// Where the instruction at the program counter strikes a watch by what it loads, or stores to.
    pub fn struck_place(&self, cpu: &Cpu, map: &AddressMap) -> Option<WatchedPlace>
        ensures { result ≡ struck_place cpu.now (bytes_of map.now) self.now }
    {
        if self.watches.is_empty() {
            return None;
        }
        let cause = Cause::of(cpu, map);
        let loaded = loaded_words(cause, cpu);
        let stored = stored_words(cause, cpu);
        let place = self.struck(loaded, stored)?;
        match self.watches.as_slice().get(place) {
            Some(watch) => Some(WatchedPlace {
                kind: watch.kind,
                address: watch.range.start,
            }),
            None => None,
        }
    }

    // Which watch is the first to be struck.
    fn struck(&self, loaded: StoredWords, stored: StoredWords) -> Option<usize>
        ensures { result ≡ position (is_struck_shown loaded stored) self.now }
    {
        self.watches
            .iter()
            .position(|watch| is_struck(loaded, stored, *watch))
    }

    /// The bytes whose change strikes a watch, as they are.
    ///
    /// # Errors
    ///
    /// Memory ran out.
    #[tactic(auto, using(crate::proofs::WatchLemmas::watch_steps))]
    pub fn seen_bytes(&self, alloc: Global, map: &AddressMap) -> Result<Vec<SeenByte>, AllocError>
        ensures { IfOk result (λ seen. seen.items ≡ watched_bytes (bytes_of map.now) self.now) }
    {
        let mut seen = Vec::new(alloc);
        let watches = self.watches.as_slice();
        for watch in watches {
            push_watch(&mut seen, map, *watch)?;
        }
        Ok(seen)
    }
}

fn is_same_kind(one: WatchKind, other: WatchKind) -> bool
    ensures { result ≡ is_same_shown one other }
{
    match one {
        WatchKind::Store => matches!(other, WatchKind::Store),
        WatchKind::Load => matches!(other, WatchKind::Load),
        WatchKind::Access => matches!(other, WatchKind::Access),
    }
}

// Whether a watch is struck where these words are loaded and those stored to.
fn is_struck(loaded: StoredWords, stored: StoredWords, watch: Watch) -> bool
    ensures { result ≡ is_struck_shown loaded stored watch }
{
    match watch.kind {
        WatchKind::Store => false,
        WatchKind::Load => reaches(loaded, watch.range),
        WatchKind::Access => reaches(loaded, watch.range) || reaches(stored, watch.range),
    }
}

// Whether one of so many words has a byte of a range.
fn reaches(words: StoredWords, range: ByteRange) -> bool
    ensures { result ≡ reaches_shown words range }
{
    let end = u64::from(words.at) + 4 * u64::from(words.count);
    u64::from(range.start) < end
        && u64::from(words.at) < u64::from(range.start) + u64::from(range.count)
}

// The bytes of a watch, unless loads alone strike it.
fn push_watch(seen: &mut Vec<SeenByte>, map: &AddressMap, watch: Watch) -> Result<(), AllocError>
    ensures { OnOk result (seen.new.items ≡ seen.old.items ++ bytes_of_watch (bytes_of map.now) watch) }
{
    if is_same_kind(watch.kind, WatchKind::Load) {
        return Ok(());
    }
    push_seen(seen, map, watch.kind, watch.range.start, watch.range.count)
}

#[tactic(auto, using(crate::proofs::WatchLemmas::seen_steps))]
fn push_seen(
    seen: &mut Vec<SeenByte>,
    map: &AddressMap,
    kind: WatchKind,
    start: u32,
    count: u32,
) -> Result<(), AllocError>
    ensures { OnOk result
        (seen.new.items ≡ seen.old.items ++ bytes_seen (bytes_of map.now) kind start count) }
{
    let mut address = start;
    let mut left = count;
    while left > 0 {
        seen.push(byte_seen(map, kind, address))?;
        address = address.wrapping_add(1);
        left -= 1;
    }
    Ok(())
}

fn byte_seen(map: &AddressMap, kind: WatchKind, address: u32) -> SeenByte
    ensures { result ≡ byte_seen_shown (bytes_of map.now) kind address }
{
    SeenByte {
        place: WatchedPlace { kind, address },
        value: loaded(map, address),
    }
}

fn loaded(map: &AddressMap, address: u32) -> Option<u8>
    ensures { result ≡ loaded_byte (byte_loaded (bytes_of map.now) address) }
{
    match map.load_byte(address) {
        Ok(byte) => Some(byte),
        Err(_) => None,
    }
}

fn is_byte_changed(map: &AddressMap, seen: SeenByte) -> bool
    ensures { result ≡ has_changed_shown (bytes_of map.now) seen }
{
    match (loaded(map, seen.place.address), seen.value) {
        (Some(now), Some(then)) => now != then,
        (None, None) => false,
        _ => true,
    }
}

/// The place of the first byte that is no longer as it was seen.
#[tactic(auto, using(crate::proofs::WatchLemmas::changed_steps))]
pub fn first_changed(map: &AddressMap, seen: &[SeenByte]) -> Option<WatchedPlace>
    ensures { result ≡ changed_shown (bytes_of map.now) seen.now }
{
    for byte in seen {
        if is_byte_changed(map, *byte) {
            return Some(byte.place);
        }
    }
    None
}
