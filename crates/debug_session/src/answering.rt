//! One line of a debugging script, answered.

ghost use Rattle.std.specs.Prelude.{◌≡◌, ◌+◌, true, false, List, Some, Err, option_map, IfErr, IfOk, IfNone, IfSome, OnOk};
ghost use Rattle.debug_tables.specs.Error.{IsLineError};
ghost use Rattle.debug_session.specs.Failing.{EndsAtOnce, ReportsWriteFault};
ghost use Rattle.profile.specs.Output.{AddsFront};
ghost use Rattle.command_shell_lines.specs.Blocks.{block_lines, lines_after, lines_taken};

use crate::session::DebugSession;
use command_shell_lines::command_of;
use command_shell_lines::debug_words::cut_at_quote;
use debug_lines::{
    DebugCommand, RepeatedLine, is_known_line, is_repeatable_line, is_script_command,
    repeated_line, repeated_text, simple_command, tidied,
};
use debug_modules::{form_line, line_on, view_text};
use debug_tables::RunError;
use debug_tables::byte_writes::find_text;
use profile::Sink;
use profile::images::Images;
use profile::text_lines::Lines;
use std::alloc::AllocError;

impl DebugSession {
    ghost use Rattle.profile.specs.images.Entries.{Entry};
    ghost use Rattle.debug_lines.specs.DebugRequests.{debug_opens_block, debug_request_of_command, is_known, is_repeatable, own_request, simple_request};
    ghost use Rattle.debug_lines.specs.Repeats.{count_and_line};
    ghost use Rattle.debug_session.specs.DebugScript.{debug_line_answer, line_opens, repeated_answer, simple_line_answer, simple_request_answer, tidy_line_answer};
    ghost use Rattle.debug_session.specs.DebugState.{IsDebugged};
    ghost use Rattle.debug_session.specs.Naming.{if_repeatable, meant_request, naming_of, numbered_line, repeated_now, repeated_with_places};
    ghost use Rattle.debug_session.specs.Session.{debug_state};

    /// Answers a line; of one that opens a block, reads the block from the lines that follow.
    ///
    /// # Errors
    ///
    /// `Memory`, when a front of the answer may stand written; `WriteFault`.
    pub fn answer_line<W: Sink>(
        &mut self,
        images: &mut Images,
        sink: &mut W,
        line: &[u8],
        script: &mut Lines,
    ) -> Result<(), RunError>
        ensures reported { OnOk result (IsDebugged (W.contents sink.old) (W.contents sink.new)
            (debug_state self.new images.new)
            (debug_line_answer self.old.setting (debug_state self.old images.old) script.old.number
            line.now (block_lines script.old.left))) }
        ensures left { OnOk result (script.new.left ≡ lines_after (line_opens line.now) script.old.left) }
        ensures number { OnOk result (script.new.number
            ≡ script.old.number + lines_taken (line_opens line.now) script.old.left) }
        ensures setting { self.new.setting ≡ self.old.setting }
        ensures memory { result ≡ Err RunError.Memory
            → AddsFront (W.contents sink.old) (W.contents sink.new)
            (debug_line_answer self.old.setting (debug_state self.old images.old) script.old.number
            line.now (block_lines script.old.left)).text }
        ensures write_fault { ReportsWriteFault W.has_failed sink.old sink.new result }
        ensures errors { IfErr result IsLineError }
        ensures same_flag { OnOk result (W.has_failed sink.new ≡ W.has_failed sink.old) }
    {
        let command = command_of(line);
        if is_script_command(&command) {
            return self.script_line(images, sink, &command, script);
        }
        let words = tidied(self.alloc, line)?;
        self.tidy_line(images, sink, words.as_slice(), script)
    }

    // Answers a line that is made tidy.
    fn tidy_line<W: Sink>(
        &mut self,
        images: &mut Images,
        sink: &mut W,
        words: &[u8],
        script: &mut Lines,
    ) -> Result<(), RunError>
        ensures reported { OnOk result (IsDebugged (W.contents sink.old) (W.contents sink.new)
            (debug_state self.new images.new)
            (tidy_line_answer self.old.setting (debug_state self.old images.old) script.old.number
            words.now (block_lines script.old.left))) }
        ensures left { OnOk result (script.new.left
            ≡ lines_after (debug_opens_block (own_request words.now)) script.old.left) }
        ensures number { OnOk result (script.new.number
            ≡ script.old.number + lines_taken (debug_opens_block (own_request words.now)) script.old.left) }
        ensures setting { self.new.setting ≡ self.old.setting }
        ensures memory { result ≡ Err RunError.Memory
            → AddsFront (W.contents sink.old) (W.contents sink.new)
            (tidy_line_answer self.old.setting (debug_state self.old images.old) script.old.number
            words.now (block_lines script.old.left)).text }
        ensures write_fault { ReportsWriteFault W.has_failed sink.old sink.new result }
        ensures errors { IfErr result IsLineError }
        ensures same_flag { OnOk result (W.has_failed sink.new ≡ W.has_failed sink.old) }
    {
        match self.repeated_now(words)? {
            Some(repeated) => self.repeat(images, sink, repeated.count, repeated.line, script),
            None => self.simple_line(images, sink, words, script),
        }
    }

    // What is repeated, and how often, of a tidy line.
    pub(crate) fn repeated_now<'a>(
        &self,
        words: &'a [u8],
    ) -> Result<Option<RepeatedLine<'a>>, AllocError>
        ensures reported { (images : List Entry) → IfOk result (λ repeated. option_map count_and_line repeated
            ≡ repeated_now (naming_of (debug_state self.now images)) words.now) }
        ensures alone { IfOk result (λ repeated. IfSome repeated
            (λ r. debug_opens_block (simple_request r.line.now) ≡ false)) }
        ensures some { IfOk result (λ repeated. IfSome repeated
            (λ r. debug_opens_block (own_request words.now) ≡ false)) }
        ensures none { IfOk result (λ repeated. IfNone repeated
            (own_request words.now ≡ simple_request words.now)) }
    {
        match repeated_line(words) {
            Some(repeated) => Ok(Some(repeated)),
            None => self.repeated_with_places(words),
        }
    }

    // What is repeated, and how often, of a line that means nothing as it stands.
    fn repeated_with_places<'a>(
        &self,
        words: &'a [u8],
    ) -> Result<Option<RepeatedLine<'a>>, AllocError>
        ensures reported { (images : List Entry) → IfOk result (λ repeated. option_map count_and_line repeated
            ≡ repeated_with_places (naming_of (debug_state self.now images)) words.now) }
        ensures alone { IfOk result (λ repeated. IfSome repeated
            (λ r. debug_opens_block (simple_request r.line.now) ≡ false)) }
        ensures some { IfOk result (λ repeated. IfSome repeated
            (λ r. is_known (simple_request words.now) ≡ false)) }
    {
        let Some(repeated) = repeated_text(words) else {
            return Ok(None);
        };
        if is_known_line(words) {
            return Ok(None);
        }
        self.if_repeatable(repeated)
    }

    // The same where the line may be repeated now.
    fn if_repeatable<'a>(
        &self,
        repeated: RepeatedLine<'a>,
    ) -> Result<Option<RepeatedLine<'a>>, AllocError>
        ensures reported { (images : List Entry) → IfOk result (λ found. option_map count_and_line found
            ≡ if_repeatable (naming_of (debug_state self.now images))
            (Some (count_and_line repeated.entry))) }
        ensures alone { IfOk result (λ found. IfSome found
            (λ r. debug_opens_block (simple_request r.line.now) ≡ false)) }
    {
        if self.is_repeatable_now(repeated.line)? {
            Ok(Some(repeated))
        } else {
            Ok(None)
        }
    }

    // Whether a tidy line asks for something now, and opens no block.
    fn is_repeatable_now(&self, line: &[u8]) -> Result<bool, AllocError>
        ensures reported { (images : List Entry) → IfOk result (λ is. is
            ≡ is_repeatable (meant_request (naming_of (debug_state self.now images)) line.now)) }
        ensures alone { IfOk result (λ is. is ≡ true → debug_opens_block (simple_request line.now) ≡ false) }
    {
        if is_known_line(line) {
            return Ok(is_repeatable_line(line));
        }
        let numbered = self.with_numbers(line)?;
        Ok(is_repeatable_line(numbered.as_slice()))
    }

    // A tidy line with numbers in place of the words that name places now, up to a text in quotes.
    pub(crate) fn with_numbers(&self, line: &[u8]) -> Result<Vec<u8>, AllocError>
        ensures { (images : List Entry) → IfOk result (λ text. text.items
            ≡ numbered_line (naming_of (debug_state self.now images)) line.now) }
    {
        let (front, text) = cut_at_quote(line);
        let machine = self.session.machine();
        let mut numbered = line_on(self.alloc, &self.labels, machine, front)?;
        numbered.extend_from_slice(text)?;
        Ok(numbered)
    }

    // Answers a tidy line many times.
    fn repeat<W: Sink>(
        &mut self,
        images: &mut Images,
        sink: &mut W,
        count: u32,
        line: &[u8],
        script: &mut Lines,
    ) -> Result<(), RunError>
        requires { debug_opens_block (simple_request line.now) ≡ false }
        ensures reported { OnOk result (IsDebugged (W.contents sink.old) (W.contents sink.new)
            (debug_state self.new images.new)
            (repeated_answer count self.old.setting script.old.number line.now
            (block_lines script.old.left) (debug_state self.old images.old))) }
        ensures left { OnOk result (script.new.left ≡ script.old.left) }
        ensures number { OnOk result (script.new.number ≡ script.old.number) }
        ensures setting { self.new.setting ≡ self.old.setting }
        ensures memory { result ≡ Err RunError.Memory
            → AddsFront (W.contents sink.old) (W.contents sink.new)
            (repeated_answer count self.old.setting script.old.number line.now
            (block_lines script.old.left) (debug_state self.old images.old)).text }
        ensures write_fault { ReportsWriteFault W.has_failed sink.old sink.new result }
        ensures errors { IfErr result IsLineError }
        ensures same_flag { OnOk result (W.has_failed sink.new ≡ W.has_failed sink.old) }
    {
        let mut left = count;
        while left > 0 {
            if self.has_quit {
                return Ok(());
            }
            self.simple_line(images, sink, line, script)?;
            left -= 1;
        }
        Ok(())
    }

    // Answers a tidy line that is no REPEAT: as it stands, or with numbers where it means nothing so.
    fn simple_line<W: Sink>(
        &mut self,
        images: &mut Images,
        sink: &mut W,
        words: &[u8],
        script: &mut Lines,
    ) -> Result<(), RunError>
        ensures reported { OnOk result (IsDebugged (W.contents sink.old) (W.contents sink.new)
            (debug_state self.new images.new)
            (simple_line_answer self.old.setting (debug_state self.old images.old) script.old.number
            words.now (block_lines script.old.left))) }
        ensures left { OnOk result (script.new.left
            ≡ lines_after (debug_opens_block (simple_request words.now)) script.old.left) }
        ensures number { OnOk result (script.new.number ≡ script.old.number
            + lines_taken (debug_opens_block (simple_request words.now)) script.old.left) }
        ensures setting { self.new.setting ≡ self.old.setting }
        ensures ends { EndsAtOnce W.has_failed sink.old sink.new result }
    {
        let command = simple_command(words);
        if command.is_known() {
            return self.known_line(images, sink, words, command, script);
        }
        let numbered = self.with_numbers(words)?;
        let meant = simple_command(numbered.as_slice());
        if meant.is_repeatable() {
            return self.known_line(images, sink, words, meant, script);
        }
        self.past_line(images, sink, words, script.number())
    }

    // Answers a line by what it asks for; `words` are the line as it was typed, made tidy.
    fn known_line<W: Sink>(
        &mut self,
        images: &mut Images,
        sink: &mut W,
        words: &[u8],
        command: DebugCommand<'_>,
        script: &mut Lines,
    ) -> Result<(), RunError>
        ensures reported { OnOk result (IsDebugged (W.contents sink.old) (W.contents sink.new)
            (debug_state self.new images.new)
            (simple_request_answer self.old.setting (debug_state self.old images.old) script.old.number
            words.now (debug_request_of_command command.entry) (block_lines script.old.left))) }
        ensures left { OnOk result (script.new.left
            ≡ lines_after (debug_opens_block (debug_request_of_command command.entry)) script.old.left) }
        ensures number { OnOk result (script.new.number ≡ script.old.number
            + lines_taken (debug_opens_block (debug_request_of_command command.entry)) script.old.left) }
        ensures setting { self.new.setting ≡ self.old.setting }
        ensures ends { EndsAtOnce W.has_failed sink.old sink.new result }
    {
        let number = script.number();
        match command {
            DebugCommand::Script(command) => self.script_line(images, sink, &command, script),
            DebugCommand::Stepping(is_traced, command) => {
                self.stepping_line(images, sink, number, is_traced, &command)
            }
            DebugCommand::Mode(command) => {
                let machine = self.session.machine();
                let text = self.modes.change(self.alloc, machine, command);
                self.show(sink, text)
            }
            DebugCommand::Remark => Ok(()),
            DebugCommand::View(view) => {
                let text = view_text(self.alloc, &self.labels, self.session.machine(), view);
                self.show(sink, text)
            }
            DebugCommand::Form(form) => self.show(sink, form_line(self.alloc, form)),
            DebugCommand::SetPc(address) => self.move_pc(sink, number, address),
            DebugCommand::SetPsr(pattern) => self.set_psr(number, pattern),
            DebugCommand::Put(name, address) => self.put(images, sink, number, name, address),
            DebugCommand::Write(at, count, named) => self.write(sink, number, at, count, named),
            DebugCommand::Find(address, count, named) => {
                let text = find_text(self.alloc, self.session.machine(), address, count, named);
                self.show(sink, text)
            }
            DebugCommand::Forget(name) => self.forget(images, sink, name),
            DebugCommand::Counts(name) => {
                let machine = self.session.machine();
                let modes = &self.modes;
                let text = modes.counts_text(self.alloc, &self.labels, machine, name);
                self.show(sink, text)
            }
            DebugCommand::Reset => self.reset(sink, number),
            DebugCommand::Quit => {
                self.has_quit = true;
                Ok(())
            }
            DebugCommand::Expect(expected) => self.print_check(sink, &expected, words, number),
            DebugCommand::Unknown => self.past_line(images, sink, words, number),
        }
    }
}
