//! The lines of its own that a debugging script has.

ghost use Rattle.std.specs.Prelude.{◌≡◌, ◌%◌, ◌<◌, ◌^◌, option_map, List, IfErr, IfOk, OnOk};
ghost use Rattle.std.specs.Result.{IsOkAnd};
ghost use Rattle.debug_session.specs.Failing.{EndsAtOnce};

use crate::session::DebugSession;
use command_shell_lines::debug_words::bytes_written;
use command_shell_lines::{KeptText, Origin};
use debug_lines::{Expectation, StatusPattern};
use debug_modules::{
    PastDeed, SeenMachine, check, forget_text, halting_fault, push_answer, push_fail, push_halted,
    push_pass, put_text, refused_line, status_with, text_of,
};
use debug_tables::RunError;
use debug_tables::byte_writes::put_bytes;
use profile::Sink;
use profile::images::Images;
use profile::text_sink::TextSink;
use std::alloc::AllocError;

impl DebugSession {
    ghost use Rattle.profile.specs.images.Entries.{Entry};
    ghost use Rattle.debug_modules.specs.Past.{past_from_start};
    ghost use Rattle.debug_modules.specs.PastDeed.TheVariants.{Place};
    ghost use Rattle.debug_tables.specs.Memory.{script_at, script_started_anew};
    ghost use Rattle.debug_modules.specs.Checks.{check_answer};
    ghost use Rattle.debug_lines.specs.Expectations.{expect_request_of};
    ghost use Rattle.debug_session.specs.DebugScript.{bytes_answer, checked_answer, forget_answer, machine_change_answer, put_answer, reset_answer, seen_of, set_pc_answer, set_psr_answer, view_answer, write_answer};
    ghost use Rattle.debug_session.specs.DebugState.{IsDebugged};
    ghost use Rattle.debug_session.specs.Session.{debug_state};
    ghost use Rattle.debug_tables.specs.MachineState.{stop_of};

    /// Takes the image of that name out, its labels, and the text of its block.
    pub(crate) fn forget<W: Sink>(
        &mut self,
        images: &mut Images,
        sink: &mut W,
        name: &[u8],
    ) -> Result<(), RunError>
        ensures reported { OnOk result (IsDebugged (W.contents sink.old) (W.contents sink.new)
            (debug_state self.new images.new)
            (forget_answer self.old.setting (debug_state self.old images.old) name.now)) }
        ensures setting { self.new.setting ≡ self.old.setting }
        ensures ends { EndsAtOnce W.has_failed sink.old sink.new result }
    {
        let is_there = images.get(name).is_some();
        let text = forget_text(self.alloc, is_there, name)?;
        let _was_there = images.remove(name);
        self.labels.remove(name);
        let _had_source = self.sources.remove(name);
        self.past.change_images_if(is_there);
        self.view(sink, text)
    }

    /// Writes the bytes of the image of that name to memory.
    pub(crate) fn put<W: Sink>(
        &mut self,
        images: &Images,
        sink: &mut W,
        number: usize,
        name: &[u8],
        address: u32,
    ) -> Result<(), RunError>
        ensures reported { OnOk result (IsDebugged (W.contents sink.old) (W.contents sink.new)
            (debug_state self.new images.now)
            (put_answer self.old.setting (debug_state self.old images.now) number name.now address)) }
        ensures setting { self.new.setting ≡ self.old.setting }
        ensures ends { EndsAtOnce W.has_failed sink.old sink.new result }
    {
        let Some(bytes) = images.get(name) else {
            let text = refused_line(self.alloc, b"NoImage")?;
            return self.view(sink, text);
        };
        let done = put_text(self.alloc, name, address)?;
        let text = self.write_bytes(number, address, bytes, done)?;
        self.view(sink, text)
    }

    /// Writes the bytes that a text names to memory, or so many, by these again and again.
    pub(crate) fn write<W: Sink>(
        &mut self,
        sink: &mut W,
        number: usize,
        address: u32,
        count: Option<u32>,
        named: &[u8],
    ) -> Result<(), RunError>
        ensures reported { (images : List Entry) → OnOk result
            (IsDebugged (W.contents sink.old) (W.contents sink.new) (debug_state self.new images)
            (write_answer self.old.setting (debug_state self.old images) number address count named.now)) }
        ensures setting { self.new.setting ≡ self.old.setting }
        ensures ends { EndsAtOnce W.has_failed sink.old sink.new result }
    {
        let bytes = bytes_written(self.alloc, count, named)?;
        let nothing = Vec::new(self.alloc);
        let text = self.write_bytes(number, address, bytes.as_slice(), nothing)?;
        self.view(sink, text)
    }

    // Writes bytes to memory, all of them or none; where they are written, the past has them. What is shown of
    // it is `done`, or why they aren't.
    fn write_bytes(
        &mut self,
        number: usize,
        address: u32,
        bytes: &[u8],
        done: Vec<u8>,
    ) -> Result<Vec<u8>, AllocError>
        ensures shown { (images : List Entry) → IfOk result (λ text. view_answer self.old.setting
            (debug_state self.new images) text.items
            ≡ bytes_answer self.old.setting (debug_state self.old images) number address bytes.now
            done.items) }
        ensures setting { self.new.setting ≡ self.old.setting }
    {
        let kept = KeptText::of(self.alloc, bytes)?;
        match put_bytes(&mut self.session, address, bytes) {
            Ok(()) => {
                self.past
                    .put(number as u64, PastDeed::Bytes(address, kept))?;
                Ok(done)
            }
            Err(fault) => refused_line(self.alloc, fault.name().as_bytes()),
        }
    }

    /// Begins anew on a fresh machine; images, labels, breaks and modes stay.
    ///
    /// # Errors
    ///
    /// Memory ran out.
    pub fn start_anew(&mut self) -> Result<(), AllocError>
        ensures made { OnOk result ((images : List Entry) → debug_state self.new images
            ≡ record (debug_state self.old images) {
              script = script_started_anew
                  (debug_state self.old images).script self.old.setting.config self.old.setting.budget;
              past = past_from_start self.old.setting.keeps_past;
            }) }
        ensures setting { self.new.setting ≡ self.old.setting }
    {
        self.session
            .start_anew(self.setting.config, self.setting.budget)?;
        self.past.begin(self.setting.keeps_past);
        Ok(())
    }

    /// Begins anew on a fresh machine; images, labels, breaks and modes stay, and what is known of the past.
    pub(crate) fn reset<W: Sink>(&mut self, sink: &mut W, number: usize) -> Result<(), RunError>
        ensures reported { (images : List Entry) → OnOk result
            (IsDebugged (W.contents sink.old) (W.contents sink.new) (debug_state self.new images)
            (reset_answer self.old.setting (debug_state self.old images) number)) }
        ensures setting { self.new.setting ≡ self.old.setting }
        ensures ends { EndsAtOnce W.has_failed sink.old sink.new result }
    {
        self.begin_again(number)?;
        let text = Vec::from_slice(self.alloc, b"reset\n")?;
        self.view(sink, text)
    }

    // Begins anew on a fresh machine, which the past has if it is kept; else it begins.
    fn begin_again(&mut self, number: usize) -> Result<(), AllocError>
        ensures made { (images : List Entry) → OnOk result (debug_state self.new images
            ≡ record (reset_answer self.old.setting (debug_state self.old images) number).state
            { answer = self.old.answer.items }) }
        ensures setting { self.new.setting ≡ self.old.setting }
    {
        if !self.past.is_kept() {
            return self.start_anew();
        }
        self.session
            .start_anew(self.setting.config, self.setting.budget)?;
        self.past.put(number as u64, PastDeed::Anew)
    }

    /// Writes a view, which is the last answer then.
    pub(crate) fn view<W: Sink>(&mut self, sink: &mut W, text: Vec<u8>) -> Result<(), RunError>
        ensures reported { (images : List Entry) → OnOk result
            (IsDebugged (W.contents sink.old) (W.contents sink.new) (debug_state self.new images)
            (view_answer self.old.setting (debug_state self.old images) text.items)) }
        ensures setting { self.new.setting ≡ self.old.setting }
        ensures ends { EndsAtOnce W.has_failed sink.old sink.new result }
    {
        self.answer = text;
        Ok(push_answer(sink, self.setting.form, self.answer.as_slice())?)
    }

    /// The same of a text for which memory may have run out.
    pub(crate) fn show<W: Sink>(
        &mut self,
        sink: &mut W,
        text: Result<Vec<u8>, AllocError>,
    ) -> Result<(), RunError>
        ensures reported { (images : List Entry) → OnOk result (IsOkAnd text (λ text.
            IsDebugged (W.contents sink.old) (W.contents sink.new) (debug_state self.new images)
            (view_answer self.old.setting (debug_state self.old images) text.items))) }
        ensures setting { self.new.setting ≡ self.old.setting }
        ensures ends { EndsAtOnce W.has_failed sink.old sink.new result }
    {
        match text {
            Ok(text) => self.view(sink, text),
            Err(_) => Err(RunError::Memory),
        }
    }

    /// Sets the program counter.
    pub(crate) fn set_pc(&mut self, number: usize, address: Origin) -> Result<(), RunError>
        ensures reported { (images : List Entry) → OnOk result (debug_state self.new images
            ≡ (machine_change_answer (debug_state self.old images) number (Place address)
            (script_at (debug_state self.old images).script address)).state) }
        ensures setting { self.new.setting ≡ self.old.setting }
        ensures errors { IfErr result (λ error. error ≡ RunError.Memory) }
    {
        self.past.put(number as u64, PastDeed::Place(address))?;
        self.session.set_pc(address.address());
        self.answer = Vec::new(self.alloc);
        Ok(())
    }

    /// Sets the program counter; where a fault has halted the machine, it stays, and is shown.
    pub(crate) fn move_pc<W: Sink>(
        &mut self,
        sink: &mut W,
        number: usize,
        address: Origin,
    ) -> Result<(), RunError>
        ensures reported { (images : List Entry) → OnOk result
            (IsDebugged (W.contents sink.old) (W.contents sink.new) (debug_state self.new images)
            (set_pc_answer self.old.setting (debug_state self.old images) number address)) }
        ensures setting { self.new.setting ≡ self.old.setting }
        ensures ends { EndsAtOnce W.has_failed sink.old sink.new result }
    {
        match halting_fault(self.session.machine().stop()) {
            None => self.set_pc(number, address),
            Some(fault) => {
                let mut text = TextSink::new(self.alloc);
                match push_halted(&mut text, fault, self.session.machine().cpu().pc()) {
                    Ok(()) => self.view(sink, text.into_bytes()),
                    Err(_) => Err(RunError::Memory),
                }
            }
        }
    }

    /// Sets what a pattern reports the status.
    pub(crate) fn set_psr(&mut self, number: usize, pattern: StatusPattern) -> Result<(), RunError>
        ensures reported { (images : List Entry) → OnOk result (debug_state self.new images
            ≡ (set_psr_answer (debug_state self.old images) number pattern).state) }
        ensures setting { self.new.setting ≡ self.old.setting }
        ensures errors { IfErr result (λ error. error ≡ RunError.Memory) }
    {
        let status = status_with(&pattern, self.session.machine().cpu().psr());
        self.past.put(number as u64, PastDeed::Status(status))?;
        self.session.set_psr(status);
        self.answer = Vec::new(self.alloc);
        Ok(())
    }

    /// Says whether what should be so is so, and why it isn't; `words` are the line, made tidy.
    pub(crate) fn print_check<W: Sink>(
        &mut self,
        sink: &mut W,
        expected: &Expectation<'_>,
        words: &[u8],
        number: usize,
    ) -> Result<(), RunError>
        ensures reported { (images : List Entry) → OnOk result
            (IsDebugged (W.contents sink.old) (W.contents sink.new) (debug_state self.new images)
            (checked_answer self.old.setting (debug_state self.old images) number words.now
            (check_answer (seen_of (debug_state self.old images)) (expect_request_of expected.now)))) }
        ensures setting { self.new.setting ≡ self.old.setting }
        ensures ends { EndsAtOnce W.has_failed sink.old sink.new result }
    {
        let form = self.setting.form;
        match self.reason_against(expected)? {
            None => {
                push_pass(sink, form, self.tally, number, words)?;
                self.tally = self.tally.with_pass();
                Ok(())
            }
            Some(reason) => {
                push_fail(sink, form, self.tally, number, words, reason.as_slice())?;
                self.tally = self.tally.with_fail();
                Ok(())
            }
        }
    }

    // Why what should be so isn't, as text; `None` where it is so.
    fn reason_against(&self, expected: &Expectation<'_>) -> Result<Option<Vec<u8>>, AllocError>
        ensures { (images : List Entry) → IfOk result (λ reason. option_map (λ text. text.items) reason
            ≡ check_answer (seen_of (debug_state self.now images)) (expect_request_of expected.now)) }
    {
        let seen = SeenMachine {
            machine: self.session.machine(),
            answer: self.answer.as_slice(),
            output: self.output.as_slice(),
            steps: self.steps,
        };
        match check(self.alloc, seen, expected)? {
            None => Ok(None),
            Some(reason) => Ok(Some(text_of(self.alloc, &reason)?)),
        }
    }
}
