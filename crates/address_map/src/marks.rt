//! The classes of all words of a store, two bits for each.

ghost use Rattle.std.specs.Prelude.{ℕ, ◌≡◌, ◌≢◌, ◌<◌, ◌≤◌, ◌+◌, ◌*◌, ◌/◌, ◌%◌, ◌==◌, true, IfOk, length, if◌then◌else◌};
ghost use Rattle.address_map.specs.declared.class.Class.{Class};
ghost use Rattle.address_map.specs.Bytes.{in_range};
ghost use Rattle.address_map.specs.Classes.{lane, weight, class_number};

use crate::class::Class;
use crate::table::Table;
use std::alloc::{AllocError, Global};

/// The class of each word of a store, four of them in a byte.
#[derive(Drop)]
pub struct Marks {
    pub(crate) bytes: Table<u8>,
}

impl Marks {
    ghost use Rattle.address_map.specs.Marks.{class_at};
    ghost use Rattle.address_map.specs.Memory.{is_plain};

    /// The classes of four words for each of that many bytes, all plain.
    pub(crate) fn new(alloc: Global, bytes: usize) -> Result<Marks, AllocError>
        ensures count { IfOk result (λ m. length m.bytes ≡ bytes) }
        ensures plain { IfOk result (λ m. (k : ℕ) → class_at m k ≡ Class.Plain) }
    {
        Ok(Marks {
            bytes: Table::new(alloc, 0, bytes)?,
        })
    }

    /// Becomes a copy of the classes of as many words.
    pub(crate) fn copy_from(&mut self, other: &Marks)
        requires { length self.old.bytes ≡ length other.now.bytes }
        ensures { self.new.bytes ≡ other.now.bytes }
    {
        self.bytes.copy_from(&other.bytes);
    }

    /// The class of a word.
    #[inline(always)]
    #[tactic(auto, unfolding(crate::specs::Marks::class_at))]
    pub(crate) fn class(&self, word: usize) -> Class
        requires { word / 4 < length self.now.bytes }
        ensures { result ≡ class_at self.now word }
    {
        match self.bytes.get(word / 4) / weight(word % 4) % 4 {
            0 => Class::Plain,
            1 => Class::Heap,
            2 => Class::FlexHeader,
            _ => Class::Anchor,
        }
    }

    /// Whether a word is plain. Mostly all four are that share its byte.
    #[inline(always)]
    pub(crate) fn is_plain(&self, word: usize) -> bool
        requires { word / 4 < length self.now.bytes }
        ensures { result ≡ is_plain (class_at self.now word) }
    {
        if self.bytes.get(word / 4) == 0 {
            return true;
        }
        self.class(word).is_plain()
    }

    /// Whether all words of the bytes from `first` up to `end` are plain.
    #[inline(always)]
    pub(crate) fn are_plain(&self, first: usize, end: usize) -> bool
        requires { end ≤ length self.now.bytes }
        ensures { result ≡ true → (k : ℕ) → 4 * first ≤ k → k < 4 * end → class_at self.now k ≡ Class.Plain }
    {
        for byte in first..end {
            if self.bytes.get(byte) != 0 {
                return false;
            }
        }
        true
    }

    /// Whether no word of the bytes from `first` up to `end` is an anchor's. Where one is a flex
    /// header's the answer is no too.
    #[inline(always)]
    pub(crate) fn are_plain_or_heap(&self, first: usize, end: usize) -> bool
        requires { end ≤ length self.now.bytes }
        ensures { result ≡ true → (k : ℕ) → 4 * first ≤ k → k < 4 * end → class_at self.now k ≢ Class.Anchor }
    {
        for byte in first..end {
            if !has_low_numbers(self.bytes.get(byte)) {
                return false;
            }
        }
        true
    }

    /// Gives a word a class.
    #[tactic(auto, using(crate::proofs::Lanes::byte_fits, crate::proofs::Lanes::number_small))]
    pub(crate) fn set(&mut self, word: usize, class: Class)
        requires { word / 4 < length self.old.bytes }
        ensures classes { (k : ℕ) → class_at self.new k ≡ (if k == word then class else class_at self.old k) }
        ensures len { length self.new.bytes ≡ length self.old.bytes }
    {
        let byte = self.bytes.get(word / 4);
        let weight = weight(word % 4);
        let rest = byte - byte / weight % 4 * weight;
        self.bytes.set(word / 4, rest + class.number() * weight);
    }

    /// Makes the words of `count` bytes plain, those of the byte `first` and those after it.
    pub(crate) fn clear(&mut self, first: usize, count: usize)
        requires { first + count ≤ length self.old.bytes }
        ensures classes { (k : ℕ) →
            class_at self.new k ≡ (if in_range (4 * first) (4 * count) k then Class.Plain
            else class_at self.old k) }
        ensures len { length self.new.bytes ≡ length self.old.bytes }
    {
        // Their number is a `usize`, so that the sums are too.
        let _len = self.bytes.len();
        for done in 0..count {
            self.bytes.set(first + done, 0);
        }
    }
}

/// What the lowest bit of a word's class counts in its byte.
fn weight(lane: usize) -> u8
    ensures { result ≡ weight lane }
{
    match lane {
        0 => 1,
        1 => 4,
        2 => 16,
        _ => 64,
    }
}

/// Whether the numbers of all four classes in a byte are below 2.
#[inline(always)]
fn has_low_numbers(byte: u8) -> bool
    ensures { result ≡ true → (k : ℕ) → lane byte (k % 4) < 2 }
{
    byte % 4 < 2 && byte / 4 % 4 < 2 && byte / 16 % 4 < 2 && byte / 64 < 2
}
