//! Lines that take steps in the modes that are set, and lines that change these.

ghost use Rattle.std.specs.Prelude.{◌≡◌, ◌+◌, List, option_map, OnOk};
ghost use Rattle.debug_session.specs.Failing.{EndsAtOnce};
ghost use Rattle.command_shell_lines.specs.Blocks.{block_lines, lines_after, lines_taken};
ghost use Rattle.command_shell_lines.specs.Requests.{opens_block, request_of_command};
ghost use Rattle.debug_lines.specs.SteppingRequests.{stepping_request_of};

use crate::session::DebugSession;
use command_shell_lines::ScriptCommand;
use debug_lines::{SteppingCommand, stepping_in};
use debug_modules::{errors_of_block, push_answer, push_why_below, take_steps};
use debug_tables::RunError;
use profile::Sink;
use profile::images::Images;
use profile::text_lines::Lines;
use std::alloc::AllocError;

impl DebugSession {
    ghost use Rattle.profile.specs.images.Entries.{Entry};
    ghost use Rattle.debug_session.specs.DebugScript.{line_in_modes_answer, script_line_answer, with_block_noted, stepping_line_answer, stepping_now, stepping_answer_by};
    ghost use Rattle.debug_session.specs.DebugState.{IsDebugged};
    ghost use Rattle.debug_session.specs.Session.{debug_state};

    /// Answers what a line of a script asks for, and writes below it, where the line boots or loads an
    /// image, that a block of its name has errors.
    pub(crate) fn script_line<W: Sink>(
        &mut self,
        images: &mut Images,
        sink: &mut W,
        command: &ScriptCommand<'_>,
        script: &mut Lines,
    ) -> Result<(), RunError>
        ensures reported { OnOk result (IsDebugged (W.contents sink.old) (W.contents sink.new)
            (debug_state self.new images.new)
            (script_line_answer self.old.setting (debug_state self.old images.old) script.old.number
            (request_of_command command.now) (block_lines script.old.left))) }
        ensures left { OnOk result (script.new.left
            ≡ lines_after (opens_block (request_of_command command.now)) script.old.left) }
        ensures number { OnOk result (script.new.number ≡ script.old.number
            + lines_taken (opens_block (request_of_command command.now)) script.old.left) }
        ensures setting { self.new.setting ≡ self.old.setting }
        ensures ends { EndsAtOnce W.has_failed sink.old sink.new result }
    {
        let form = self.setting.form;
        let below = self.failed.reason(self.alloc, images, command)?;
        self.note_block(command, script)?;
        self.line_in_modes(images, sink, command, script)?;
        Ok(push_answer(sink, form, below.as_slice())?)
    }

    // Keeps whether a line's block has errors, if it is an ASM block.
    fn note_block(&mut self, command: &ScriptCommand<'_>, block: &Lines) -> Result<(), AllocError>
        ensures reported { (images : List Entry) → OnOk result (debug_state self.new images
            ≡ with_block_noted (debug_state self.old images) block.now.number
            (request_of_command command.now) (block_lines block.now.left)) }
        ensures setting { self.new.setting ≡ self.old.setting }
    {
        match *command {
            ScriptCommand::Asm(name, origin) => {
                let errors = errors_of_block(self.alloc, block, origin)?;
                self.failed.note(name, block.number(), errors.len() > 0)
            }
            ScriptCommand::Hex(name) => self.failed.note(name, block.number(), false),
            _ => Ok(()),
        }
    }

    // Answers what a line of a script asks for, in the modes that are set.
    fn line_in_modes<W: Sink>(
        &mut self,
        images: &mut Images,
        sink: &mut W,
        command: &ScriptCommand<'_>,
        script: &mut Lines,
    ) -> Result<(), RunError>
        ensures reported { OnOk result (IsDebugged (W.contents sink.old) (W.contents sink.new)
            (debug_state self.new images.new)
            (line_in_modes_answer self.old.setting (debug_state self.old images.old) script.old.number
            (request_of_command command.now) (block_lines script.old.left))) }
        ensures left { OnOk result (script.new.left
            ≡ lines_after (opens_block (request_of_command command.now)) script.old.left) }
        ensures number { OnOk result (script.new.number ≡ script.old.number
            + lines_taken (opens_block (request_of_command command.now)) script.old.left) }
        ensures setting { self.new.setting ≡ self.old.setting }
        ensures ends { EndsAtOnce W.has_failed sink.old sink.new result }
    {
        match self.stepping_now(command) {
            Some(steps) => self.stepping_line(images, sink, script.number(), false, &steps),
            None => self.plain_line(images, sink, command, script),
        }
    }

    // What a line of a script asks for, where modes are set in which its steps are answered otherwise.
    fn stepping_now<'a>(&self, command: &ScriptCommand<'a>) -> Option<SteppingCommand<'a>>
        ensures { (images : List Entry) → option_map stepping_request_of result
            ≡ stepping_now (debug_state self.now images) (request_of_command command.now) }
    {
        if self.modes.takes_over() {
            stepping_in(command)
        } else {
            None
        }
    }

    /// Answers a line that takes steps, traced or not, with the whole budget for them.
    pub(crate) fn stepping_line<W: Sink>(
        &mut self,
        images: &Images,
        sink: &mut W,
        number: usize,
        is_traced: bool,
        command: &SteppingCommand<'_>,
    ) -> Result<(), RunError>
        ensures reported { OnOk result (IsDebugged (W.contents sink.old) (W.contents sink.new)
            (debug_state self.new images.now)
            (stepping_line_answer self.old.setting (debug_state self.old images.now) number is_traced
            (stepping_request_of command.now))) }
        ensures setting { self.new.setting ≡ self.old.setting }
        ensures ends { EndsAtOnce W.has_failed sink.old sink.new result }
    {
        self.session.set_budget(self.setting.budget);
        let taken = take_steps(
            self.alloc,
            &mut self.session,
            &mut self.modes,
            &mut self.past,
            images,
            &self.labels,
            number as u64,
            is_traced,
            command,
        )?;
        self.print_steps(sink, taken.text, taken.printed, taken.ending)
    }

    /// Writes what a line that took steps left to write, and while WHY is on, what WHY shows of an error in
    /// which it ended; keeps all but that for the lines that expect something.
    pub(crate) fn print_steps<W: Sink>(
        &mut self,
        sink: &mut W,
        text: Vec<u8>,
        printed: Vec<u8>,
        ending: Vec<u8>,
    ) -> Result<(), RunError>
        ensures reported { (images : List Entry) → OnOk result
            (IsDebugged (W.contents sink.old) (W.contents sink.new) (debug_state self.new images)
            (stepping_answer_by self.old.setting (debug_state self.old images)
            (debug_state self.old images).script text.items printed.items ending.items)) }
        ensures setting { self.new.setting ≡ self.old.setting }
        ensures ends { EndsAtOnce W.has_failed sink.old sink.new result }
    {
        self.steps = self.steps_taken();
        self.answer = ending;
        self.output = printed;
        let form = self.setting.form;
        push_answer(sink, form, text.as_slice())?;
        let ending = self.answer.as_slice();
        push_answer(sink, form, ending)?;
        Ok(push_why_below(sink, form, &self.modes, self.session.machine(), ending)?)
    }
}
