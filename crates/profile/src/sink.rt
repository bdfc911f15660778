//! What answers are written to, and how bytes are written to it whole.

ghost use Rattle.std.specs.Prelude.{◌≡◌, ◌≤◌, ◌<◌, ◌-◌, ℕ, Bool, true, false, not, [], List, length, take, codes, Option, Some, None, IfOk, OnOk, OnErr, is_err};
ghost use Rattle.std.specs.List.{flat_map};
ghost use Rattle.std.specs.Io.KnownBytes.{Appends, WriteAppends};
ghost use Rattle.profile.specs.Output.{AddsPart};
ghost use Rattle.profile.specs.MemoryDevices.{SinkState, can_push, sink_after_push, push_count};

use crate::device::{Device, is_passing};
use std::error::Error;
use std::fmt;
use std::io::Write;
use std::marker::Model;

/// A writer failed.
#[derive(Clone, Copy, Debug, PartialEq, Eq)]
pub struct WriteFault;

impl fmt::Display for WriteFault {
    ghost output = { λ _. Some (codes "the output can't be written") };

    fn fmt<W: fmt::Write>(&self, f: &mut fmt::Formatter<W>) -> fmt::Result {
        f.write_str("the output can't be written")
    }
}

impl Error for WriteFault {}

/// What answers are written to.
///
/// A sink has a flag, up for good from its first failure on, and a call answers its fault exactly
/// where it leaves the flag up.
pub trait Sink {
    // The bytes that it has taken, or `None` where it does not tell.
    ghost contents: { Self → Option (List ℕ) };

    ghost has_failed: { Self → Bool };

    /// Takes bytes from the front of the slice, one at least, and answers how many.
    fn push(&mut self, bytes: &[u8]) -> Result<usize, WriteFault>
        requires { 0 < length bytes.now }
        ensures some { IfOk result (λ n. 0 < n) }
        ensures count { IfOk result (λ n. n ≤ length bytes.now) }
        ensures bytes { WriteAppends (contents self.old) (contents self.new) result bytes.now }
        ensures flag { has_failed self.new ≡ is_err result }
        ensures stays { has_failed self.old ≡ true → has_failed self.new ≡ true };
}

/// An interrupted call is taken up again; any other error of the writer raises the flag, and so
/// does a call that takes nothing.
impl<T: Write> Sink for Device<T> {
    ghost contents = { λ d. T.contents d.inner };

    ghost has_failed = { λ d. d.has_failed };

    fn push(&mut self, bytes: &[u8]) -> Result<usize, WriteFault> {
        if self.has_failed {
            return Err(WriteFault);
        }
        for _tries in 0..u64::MAX {
            match self.inner.write(bytes) {
                Ok(0) => break,
                Ok(count) => return Ok(count),
                Err(error) => {
                    if !is_passing(error.kind()) {
                        break;
                    }
                }
            }
        }
        self.has_failed = true;
        Err(WriteFault)
    }
}

/// A sink over room in memory, for tests: it takes at most so many bytes in a call, and fails
/// where its room is full and from a call of a given number on.
#[derive(Drop)]
pub struct MemorySink<'a> {
    room: &'a mut [u8],
    used: usize,
    most: usize,
    calls: u64,
    has_failed: bool,
}

impl<'a> Model for MemorySink<'a> {
    ghost Value = { SinkState };

    ghost view = { λ s. record {
      taken = take s.used s.room.now;
      room = length s.room.now;
      most = s.most;
      calls = s.calls;
      has_failed = s.has_failed;
    } };

    ghost invariant = { λ s. (s.used ≤ length s.room.now) × (0 < s.most) };
}

impl<'a> MemorySink<'a> {
    /// Fills this room, takes at most `most` bytes in a call, and fails from call `fails_from` on,
    /// counted from 1.
    pub fn new(room: &'a mut [u8], most: usize, fails_from: u64) -> MemorySink<'a>
        requires some { 0 < most }
        requires first { 0 < fails_from }
        ensures { result ≡ record {
          taken = [];
          room = length room.entry.now;
          most = most;
          calls = fails_from - 1;
          has_failed = false;
        } }
    {
        MemorySink {
            room,
            used: 0,
            most,
            calls: fails_from - 1,
            has_failed: false,
        }
    }

    /// The bytes that the sink has taken.
    pub fn written(&self) -> &[u8]
        ensures { result.now ≡ self.now.taken }
    {
        &self.room[..self.used]
    }
}

impl<'a> Sink for MemorySink<'a> {
    ghost contents = { λ s. Some s.taken };

    ghost has_failed = { λ s. s.has_failed };

    fn push(&mut self, bytes: &[u8]) -> Result<usize, WriteFault>
        requires { 0 < length bytes.now }
        ensures some { IfOk result (λ n. 0 < n) }
        ensures count { IfOk result (λ n. n ≤ length bytes.now) }
        ensures bytes { WriteAppends (Some self.old.taken) (Some self.new.taken) result bytes.now }
        ensures flag { self.new.has_failed ≡ is_err result }
        ensures stays { self.old.has_failed ≡ true → self.new.has_failed ≡ true }
        ensures fails { is_err result ≡ not (can_push self.old) }
        ensures taken { IfOk result (λ n. n ≡ push_count self.old (length bytes.now)) }
        ensures after { self.new ≡ sink_after_push self.old bytes.now }
    {
        if self.has_failed || self.calls == 0 || self.used == self.room.len() {
            self.has_failed = true;
            return Err(WriteFault);
        }
        self.calls -= 1;
        let count = self.most.min(self.room.len() - self.used).min(bytes.len());
        self.room[self.used..self.used + count].copy_from_slice(&bytes[..count]);
        self.used += count;
        Ok(count)
    }
}

/// Writes all the bytes, or answers the sink's fault; then some of them may have been written, and
/// not all.
#[tactic(auto, using(crate::proofs::OutputLemmas::output_steps))]
pub fn push_all<W: Sink>(sink: &mut W, bytes: &[u8]) -> Result<(), WriteFault>
    ensures text { OnOk result (Appends (W.contents sink.old) (W.contents sink.new) bytes.now) }
    ensures part { OnErr result (AddsPart (W.contents sink.old) (W.contents sink.new) bytes.now) }
    ensures flag { OnErr result (W.has_failed sink.new ≡ true) }
    ensures same_flag { OnOk result (W.has_failed sink.new ≡ W.has_failed sink.old) }
{
    let mut rest = bytes;
    while !rest.is_empty() {
        let count = sink.push(rest)?;
        rest = &rest[count..];
    }
    Ok(())
}

/// Writes the parts one after another, as `push_all` writes their text.
#[tactic(auto, using(crate::proofs::OutputLemmas::output_steps))]
pub fn push_parts<W: Sink>(sink: &mut W, parts: &[&[u8]]) -> Result<(), WriteFault>
    ensures text { OnOk result (Appends (W.contents sink.old) (W.contents sink.new)
        (flat_map (λ p. p.now) parts.now)) }
    ensures part { OnErr result
        (AddsPart (W.contents sink.old) (W.contents sink.new) (flat_map (λ p. p.now) parts.now)) }
    ensures flag { OnErr result (W.has_failed sink.new ≡ true) }
    ensures same_flag { OnOk result (W.has_failed sink.new ≡ W.has_failed sink.old) }
{
    for part in parts {
        push_all(sink, part)?;
    }
    Ok(())
}
