//! The words that were carried out last, predecoded.

ghost use Rattle.std.specs.Prelude.{◌≡◌, ◌<◌, true, slice_index_or};
ghost use Rattle.arm_predecode.specs.OpValue.{OpValue};

use crate::op::Op;
use std::alloc::{AllocError, Global};
use std::marker::Model;

/// How many words are kept: as many as a page has.
pub const PLACES: usize = 1024;

/// The words that were carried out last, predecoded, each at a place that goes by its address.
///
/// A word is looked up together with the place, and predecoded anew where another stands there. So
/// nothing has to be told of a change of memory.
#[derive(Drop)]
pub struct DecodeCache {
    entries: Vec<Op>,
}

impl Model for DecodeCache {
    ghost use Rattle.std.specs.Prelude.{◌≡◌, List, length};
    ghost use Rattle.arm_predecode.specs.OpValue.{OpValue};

    ghost Value = { List OpValue };

    ghost view = { λ t. t.entries.items };

    ghost invariant = { λ t. length t.entries.items ≡ 1024 };
}

impl DecodeCache {
    /// As many words as there are places. All are the word 0.
    ///
    /// # Errors
    ///
    /// `AllocError` where the host has no memory for it.
    pub fn new(alloc: Global) -> Result<DecodeCache, AllocError> {
        Ok(DecodeCache {
            entries: vec![in alloc; Op::slow(0); PLACES]?,
        })
    }

    /// Has a predecoded word at a place.
    #[inline(always)]
    pub fn prepare(&mut self, place: usize, word: u32)
        requires { place < 1024 }
        ensures { (default : OpValue) → (slice_index_or self.new place default).word ≡ word }
    {
        if self.holds(place, word) {
            return;
        }
        self.keep(place, word);
    }

    /// The word at a place.
    #[inline(always)]
    pub fn at(&self, place: usize) -> &Op
        requires { place < 1024 }
        ensures { result.now ≡ slice_index_or self.now place result.now }
    {
        &self.entries[place]
    }

    // Whether this is the word at a place.
    #[inline(always)]
    fn holds(&self, place: usize, word: u32) -> bool
        requires { place < 1024 }
        ensures { result ≡ true →
            (default : OpValue) → (slice_index_or self.now place default).word ≡ word }
    {
        self.entries[place].word == word
    }

    #[cold]
    #[inline(never)]
    fn keep(&mut self, place: usize, word: u32)
        requires { place < 1024 }
        ensures { (default : OpValue) → (slice_index_or self.new place default).word ≡ word }
    {
        self.entries[place] = Op::of(word);
    }
}
