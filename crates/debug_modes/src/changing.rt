//! The lines that change modes.

ghost use Rattle.std.specs.Prelude.{◌≡◌, IfOk, OnErr};
ghost use Rattle.debug_lines.specs.ModeRequests.{mode_request_of};
ghost use Rattle.debug_modes.specs.Changes.{IsModeAnswer, counting_line_answer, limit_line_answer, mode_answer, stub_line_answer, trace_line_answer, unstub_line_answer, unwatch_line_answer, watch_line_answer, why_line_answer};
ghost use Rattle.command_shell.specs.GuestState.{state_of};

use crate::answers::{at_line, limit_line, refused_line};
use crate::modes::DebugModes;
use crate::stub_lines::{stub_number, with_stub_number};
use command_shell::{Machine, Stub};
use debug_lines::{ModeCommand, WordAddress};
use std::alloc::{AllocError, Global};

impl DebugModes {
    /// Changes what a line asks for, and answers with the line's answer. Where that is a refusal all
    /// modes stay:
    ///
    /// - `refused Known`: the machine has the call of a stub, of its own or of a module's.
    /// - `refused StubTableFull`: there are 64 other stubs.
    /// - `refused NoStub`: there is no stub of that number.
    /// - `refused WatchTableFull`: 4 other words are watched.
    /// - `refused NoWatch`: the word is not watched.
    ///
    /// A stub's number goes without its X bit, and below 2^24, as CALL takes it.
    ///
    /// # Errors
    ///
    /// `AllocError` where the host has no memory for the answer, or for counts; the modes stay then.
    pub fn change(
        &mut self,
        alloc: Global,
        machine: &Machine,
        command: ModeCommand,
    ) -> Result<Vec<u8>, AllocError>
        ensures reported { IfOk result (λ text. IsModeAnswer
            (mode_answer (state_of machine.now.guest) self.old (mode_request_of command))
            self.new text.items) }
        ensures same { OnErr result (self.new ≡ self.old) }
    {
        match command {
            ModeCommand::Trace(is_on) => self.trace(alloc, is_on),
            ModeCommand::TraceLimit(limit) => self.set_limit(alloc, limit),
            ModeCommand::Stub(stub) => self.add_stub(alloc, machine, stub),
            ModeCommand::Unstub(number) => self.remove_stub(alloc, number),
            ModeCommand::Watch(address) => self.add_watch(alloc, address),
            ModeCommand::Unwatch(address) => self.remove_watch(alloc, address),
            ModeCommand::Count(is_on) => self.count(alloc, is_on),
        }
    }

    fn trace(&mut self, alloc: Global, is_on: bool) -> Result<Vec<u8>, AllocError>
        ensures reported { IfOk result (λ text.
            IsModeAnswer (trace_line_answer self.old is_on) self.new text.items) }
        ensures same { OnErr result (self.new ≡ self.old) }
    {
        let text: &[u8] = if is_on { b"trace on\n" } else { b"trace off\n" };
        let text = Vec::from_slice(alloc, text)?;
        self.is_tracing = is_on;
        Ok(text)
    }

    /// Sets whether what WHY shows stands below each answer that ends with an error: `why on`, `why off`.
    ///
    /// # Errors
    ///
    /// Memory ran out; the modes stay then.
    pub fn explain(&mut self, alloc: Global, is_on: bool) -> Result<Vec<u8>, AllocError>
        ensures reported { IfOk result (λ text.
            IsModeAnswer (why_line_answer self.old is_on) self.new text.items) }
        ensures same { OnErr result (self.new ≡ self.old) }
    {
        let text: &[u8] = if is_on { b"why on\n" } else { b"why off\n" };
        let text = Vec::from_slice(alloc, text)?;
        self.is_explaining = is_on;
        Ok(text)
    }

    fn set_limit(&mut self, alloc: Global, limit: u32) -> Result<Vec<u8>, AllocError>
        ensures reported { IfOk result (λ text.
            IsModeAnswer (limit_line_answer self.old limit) self.new text.items) }
        ensures same { OnErr result (self.new ≡ self.old) }
    {
        let text = limit_line(alloc, limit)?;
        self.limit = u64::from(limit);
        Ok(text)
    }

    fn count(&mut self, alloc: Global, is_on: bool) -> Result<Vec<u8>, AllocError>
        ensures reported { IfOk result (λ text.
            IsModeAnswer (counting_line_answer self.old is_on) self.new text.items) }
        ensures same { OnErr result (self.new ≡ self.old) }
    {
        let text: &[u8] = if is_on { b"count on\n" } else { b"count off\n" };
        let text = Vec::from_slice(alloc, text)?;
        if !is_on {
            self.counts.stop();
            return Ok(text);
        }
        self.counts.begin()?;
        Ok(text)
    }

    fn add_stub(
        &mut self,
        alloc: Global,
        machine: &Machine,
        stub: Stub,
    ) -> Result<Vec<u8>, AllocError>
        ensures reported { IfOk result (λ text. IsModeAnswer
            (stub_line_answer (state_of machine.now.guest) self.old stub) self.new text.items) }
        ensures same { OnErr result (self.new ≡ self.old) }
    {
        let stub = with_stub_number(stub);
        let text = at_line(alloc, b"stub", stub.number)?;
        match self.steps.stubs.add(machine, stub) {
            Ok(()) => Ok(text),
            Err(error) => refused_line(alloc, error.name()),
        }
    }

    fn remove_stub(&mut self, alloc: Global, number: u32) -> Result<Vec<u8>, AllocError>
        ensures reported { IfOk result (λ text.
            IsModeAnswer (unstub_line_answer self.old number) self.new text.items) }
        ensures same { OnErr result (self.new ≡ self.old) }
    {
        let number = stub_number(number);
        let text = at_line(alloc, b"unstub", number)?;
        match self.steps.stubs.remove(number) {
            Ok(()) => Ok(text),
            Err(error) => refused_line(alloc, error.name()),
        }
    }

    fn add_watch(&mut self, alloc: Global, address: WordAddress) -> Result<Vec<u8>, AllocError>
        ensures reported { IfOk result (λ text.
            IsModeAnswer (watch_line_answer self.old address) self.new text.items) }
        ensures same { OnErr result (self.new ≡ self.old) }
    {
        let text = at_line(alloc, b"watch", address.address())?;
        match self.steps.watches.add(address) {
            Ok(()) => Ok(text),
            Err(error) => refused_line(alloc, error.name()),
        }
    }

    fn remove_watch(&mut self, alloc: Global, address: WordAddress) -> Result<Vec<u8>, AllocError>
        ensures reported { IfOk result (λ text.
            IsModeAnswer (unwatch_line_answer self.old address) self.new text.items) }
        ensures same { OnErr result (self.new ≡ self.old) }
    {
        let text = at_line(alloc, b"unwatch", address.address())?;
        match self.steps.watches.remove(address) {
            Ok(()) => Ok(text),
            Err(error) => refused_line(alloc, error.name()),
        }
    }
}
