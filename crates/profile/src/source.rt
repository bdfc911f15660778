//! What a script is read from.

ghost use Rattle.std.specs.Prelude.{◌≡◌, ◌≤◌, ◌<◌, ◌-◌, ℕ, Bool, true, false, not, List, length, codes, Option, Some, None, IfOk, is_err};
ghost use Rattle.std.specs.Io.KnownBytes.{ReadConsumes};
ghost use Rattle.profile.specs.Pulls.{PullsOnce};
ghost use Rattle.profile.specs.MemoryDevices.{SourceState, can_pull, source_after_pull, pull_count, buffer_after_pull};

use crate::device::{Device, is_passing};
use std::error::Error;
use std::fmt;
use std::io::Read;
use std::marker::Model;

/// A reader failed.
#[derive(Clone, Copy, Debug, PartialEq, Eq)]
pub struct ReadFault;

impl fmt::Display for ReadFault {
    ghost output = { λ _. Some (codes "the input can't be read") };

    fn fmt<W: fmt::Write>(&self, f: &mut fmt::Formatter<W>) -> fmt::Result {
        f.write_str("the input can't be read")
    }
}

impl Error for ReadFault {}

/// What a script is read from.
///
/// A source has a flag, up for good from its first failure on, and a call answers its fault
/// exactly where it leaves the flag up.
pub trait Source {
    // The bytes that it will give from here on, or `None` where it does not tell.
    ghost remaining: { Self → Option (List ℕ) };

    ghost has_failed: { Self → Bool };

    // How many calls it has had, or `None` where it does not tell.
    ghost pulls: { Self → Option ℕ } = { λ _. None };

    /// Puts the next bytes at the front of the buffer and answers how many; 0 is the end.
    fn pull(&mut self, buffer: &mut [u8]) -> Result<usize, ReadFault>
        requires { 0 < length buffer.old }
        ensures count { IfOk result (λ n. n ≤ length buffer.new) }
        ensures bytes { ReadConsumes (remaining self.old) (remaining self.new) result buffer.new }
        ensures flag { has_failed self.new ≡ is_err result }
        ensures stays { has_failed self.old ≡ true → has_failed self.new ≡ true }
        ensures counted { PullsOnce (pulls self.old) (pulls self.new) };
}

/// An interrupted call is taken up again; any other error of the reader raises the flag.
impl<T: Read> Source for Device<T> {
    ghost remaining = { λ d. T.remaining d.inner };

    ghost has_failed = { λ d. d.has_failed };

    fn pull(&mut self, buffer: &mut [u8]) -> Result<usize, ReadFault> {
        if self.has_failed {
            return Err(ReadFault);
        }
        for _tries in 0..u64::MAX {
            match self.inner.read(buffer) {
                Ok(count) => return Ok(count),
                Err(error) => {
                    if !is_passing(error.kind()) {
                        break;
                    }
                }
            }
        }
        self.has_failed = true;
        Err(ReadFault)
    }
}

/// A source over bytes in memory, for tests: it gives at most so many bytes in a call, and fails
/// from a call of a given number on.
#[derive(Drop)]
pub struct MemorySource<'a> {
    bytes: &'a [u8],
    most: usize,
    calls: u64,
    has_failed: bool,
}

impl<'a> Model for MemorySource<'a> {
    ghost Value = { SourceState };

    ghost view = { λ s. record { bytes = s.bytes.now; most = s.most; calls = s.calls; has_failed = s.has_failed } };

    ghost invariant = { λ s. 0 < s.most };
}

impl<'a> MemorySource<'a> {
    /// Gives these bytes, at most `most` in a call, and fails from call `fails_from` on, counted
    /// from 1.
    pub fn new(bytes: &'a [u8], most: usize, fails_from: u64) -> MemorySource<'a>
        requires some { 0 < most }
        requires first { 0 < fails_from }
        ensures { result ≡ record {
          bytes = bytes.now;
          most = most;
          calls = fails_from - 1;
          has_failed = false;
        } }
    {
        MemorySource {
            bytes,
            most,
            calls: fails_from - 1,
            has_failed: false,
        }
    }
}

impl<'a> Source for MemorySource<'a> {
    ghost remaining = { λ s. Some s.bytes };

    ghost has_failed = { λ s. s.has_failed };

    fn pull(&mut self, buffer: &mut [u8]) -> Result<usize, ReadFault>
        requires { 0 < length buffer.old }
        ensures count { IfOk result (λ n. n ≤ length buffer.new) }
        ensures bytes { ReadConsumes (Some self.old.bytes) (Some self.new.bytes) result buffer.new }
        ensures flag { self.new.has_failed ≡ is_err result }
        ensures stays { self.old.has_failed ≡ true → self.new.has_failed ≡ true }
        ensures fails { is_err result ≡ not (can_pull self.old) }
        ensures taken { IfOk result (λ n. n ≡ pull_count self.old (length buffer.old)) }
        ensures after { self.new ≡ source_after_pull self.old (length buffer.old) }
        ensures filled { buffer.new ≡ buffer_after_pull self.old buffer.old }
    {
        if self.has_failed || self.calls == 0 {
            self.has_failed = true;
            return Err(ReadFault);
        }
        self.calls -= 1;
        let count = self.most.min(self.bytes.len()).min(buffer.len());
        let (front, rest) = self.bytes.split_at(count);
        buffer[..count].copy_from_slice(front);
        self.bytes = rest;
        Ok(count)
    }
}
