//! Lines of a script within a debugging script: each may take the whole budget, and what it is
//! answered is kept for the lines that expect something of it.

ghost use Rattle.std.specs.Prelude.{◌≡◌, ◌+◌, ◌-◌, true, List, Some, [], IfOk, IfErr, OnOk, if◌then◌else◌};
ghost use Rattle.debug_session.specs.Failing.{EndsAtOnce};
ghost use Rattle.debug_session.specs.Noting.{state_noted};
ghost use Rattle.debug_tables.specs.Script.{request_answer};
ghost use Rattle.command_shell_lines.specs.Blocks.{block_lines, lines_after, lines_taken};
ghost use Rattle.debug_modules.specs.DebugModesEndings.{ending_of, output_of};
ghost use Rattle.command_shell_lines.specs.Requests.{opens_block, request_of_command};
ghost use Rattle.debug_tables.specs.Passes.{labels_of_lines};
ghost use Rattle.debug_lines.specs.LineKinds.{takes_steps};
ghost use Rattle.debug_session.specs.Naming.{labels_with_block, labels_with_image};

use crate::session::DebugSession;
use command_shell_lines::{Origin, ScriptCommand, skip_block};
use debug_lines::{asks_nothing, is_named_image, is_refused_block, takes_steps};
use debug_modules::{
    LabelTable, answer_metered, answer_parts, is_faulted, keep_source, push_line_answer,
    push_refusal, with_errors,
};
use debug_tables::{RunError, labels_of_lines};
use profile::Sink;
use profile::images::Images;
use profile::text_lines::Lines;
use profile::text_sink::TextSink;
use std::alloc::{AllocError, Global};
use std::mem::replace;

impl DebugSession {
    ghost use Rattle.debug_tables.specs.Memory.{script_with_budget};
    ghost use Rattle.debug_tables.specs.Session.{script_state};
    ghost use Rattle.debug_tables.specs.State.{IsAnswered};
    ghost use Rattle.profile.specs.images.Entries.{Entry};
    ghost use Rattle.debug_session.specs.DebugScript.{plain_line_answer, answer_or_refused};
    ghost use Rattle.debug_session.specs.DebugState.{IsDebugged};
    ghost use Rattle.debug_session.specs.Session.{debug_state};

    // Answers what a line of a script asks for as a script does, with the whole budget for its steps. Where an
    // ASM block is refused, its errors stand behind the answer.
    pub(crate) fn plain_line<W: Sink>(
        &mut self,
        images: &mut Images,
        sink: &mut W,
        command: &ScriptCommand<'_>,
        script: &mut Lines,
    ) -> Result<(), RunError>
        ensures reported { OnOk result (IsDebugged (W.contents sink.old) (W.contents sink.new)
            (debug_state self.new images.new)
            (plain_line_answer self.old.setting (debug_state self.old images.old) script.old.number
            (request_of_command command.now) (block_lines script.old.left))) }
        ensures left { OnOk result (script.new.left
            ≡ lines_after (opens_block (request_of_command command.now)) script.old.left) }
        ensures number { OnOk result (script.new.number ≡ script.old.number
            + lines_taken (opens_block (request_of_command command.now)) script.old.left) }
        ensures setting { self.new.setting ≡ self.old.setting }
        ensures ends { EndsAtOnce W.has_failed sink.old sink.new result }
    {
        let block = script.again();
        let was_there = is_named_image(images, command);
        let answer = self.answer_to(images, command, script)?;
        if asks_nothing(command) {
            self.scratch = answer;
            return Ok(());
        }
        let text = answer.as_slice();
        let is_refused = is_refused_block(was_there, images, command);
        self.note_line(images, command, &block, is_refused, text)?;
        if is_refused {
            let explained = with_errors(self.alloc, true, command, &block, text)?;
            return self.print_refusal(sink, block.number(), explained.as_slice());
        }
        let shown = push_line_answer(sink, self.setting.form, takes_steps(command), text);
        self.scratch = answer;
        Ok(shown?)
    }

    // What a request of a script is answered, with the whole budget for its steps.
    fn answer_to(
        &mut self,
        images: &mut Images,
        command: &ScriptCommand<'_>,
        script: &mut Lines,
    ) -> Result<Vec<u8>, RunError>
        ensures reported { IfOk result (λ answer. IsAnswered (Some []) (Some answer.items)
            (script_state self.new.session images.new)
            (request_answer (script_with_budget (script_state self.old.session images.old)
            self.old.setting.budget) script.old.number (request_of_command command.now)
            (block_lines script.old.left))) }
        ensures left { OnOk result (script.new.left
            ≡ lines_after (opens_block (request_of_command command.now)) script.old.left) }
        ensures number { OnOk result (script.new.number ≡ script.old.number
            + lines_taken (opens_block (request_of_command command.now)) script.old.left) }
        ensures rest { self.new ≡ record self.old {
          session = self.new.session;
          scratch = self.new.scratch;
        } }
        ensures errors { IfErr result (λ error. error ≡ RunError.Memory) }
    {
        self.session.set_budget(self.setting.budget);
        let memory = replace(&mut self.scratch, Vec::new(self.alloc));
        let mut text = TextSink::over(memory);
        let meter = self.setting.meter;
        match answer_metered(&mut self.session, images, &mut text, command, script, meter) {
            Ok(()) => Ok(text.into_bytes()),
            Err(_) => Err(RunError::Memory),
        }
    }

    // Keeps what a line did, and its answer for the lines that expect something; of a block that is refused,
    // the answer alone.
    fn note_line(
        &mut self,
        images: &Images,
        command: &ScriptCommand<'_>,
        block: &Lines,
        is_refused: bool,
        answer: &[u8],
    ) -> Result<(), AllocError>
        ensures noted { OnOk result (debug_state self.new images.now ≡ state_noted self.old.setting
            (debug_state self.old images.now) block.now.number is_refused
            (request_of_command command.now) answer.now (block_lines block.now.left)) }
        ensures setting { self.new.setting ≡ self.old.setting }
    {
        self.note(takes_steps(command), answer)?;
        if is_refused {
            return Ok(());
        }
        let number = block.number() as u64;
        let taken = self.steps_taken();
        let has_faulted = is_faulted(&self.session);
        self.past
            .note(self.alloc, number, command, taken, has_faulted)?;
        take_labels(self.alloc, &mut self.labels, images, command, block)?;
        keep_source(self.alloc, &mut self.sources, command, block, false)
    }

    // Keeps an answer for the lines that expect something; of one to a line that takes steps, how they
    // ended, what the guest printed, and how many steps those were.
    fn note(&mut self, takes_steps: bool, answer: &[u8]) -> Result<(), AllocError>
        ensures answer { OnOk result (self.new.answer.items
            ≡ (if takes_steps then ending_of answer.now else answer.now)) }
        ensures output { OnOk result (self.new.output.items
            ≡ (if takes_steps then output_of answer.now else self.old.output.items)) }
        ensures steps { OnOk result (self.new.steps
            ≡ (if takes_steps then self.old.setting.budget - self.old.session.left else self.old.steps)) }
        ensures rest { OnOk result (self.new ≡ record self.old {
          answer = self.new.answer;
          output = self.new.output;
          steps = self.new.steps;
        }) }
        ensures setting { self.new.setting ≡ self.old.setting }
    {
        if !takes_steps {
            return refill(&mut self.answer, answer);
        }
        let (output, ending) = answer_parts(answer);
        refill(&mut self.output, output)?;
        refill(&mut self.answer, ending)?;
        self.steps = self.steps_taken();
        Ok(())
    }

    // How many steps the last line took.
    pub(crate) fn steps_taken(&self) -> u64
        ensures { result ≡ self.now.setting.budget - self.now.session.left }
    {
        self.setting.budget.saturating_sub(self.session.left())
    }

    // Writes that a line or its block is refused, and counts it.
    pub(crate) fn print_refusal<W: Sink>(
        &mut self,
        sink: &mut W,
        number: usize,
        text: &[u8],
    ) -> Result<(), RunError>
        ensures reported { (images : List Entry) → OnOk result (IsDebugged (W.contents sink.old)
            (W.contents sink.new) (debug_state self.new images)
            (answer_or_refused self.old.setting (debug_state self.old images) number true
            (debug_state self.old images) text.now)) }
        ensures setting { self.new.setting ≡ self.old.setting }
        ensures ends { EndsAtOnce W.has_failed sink.old sink.new result }
    {
        push_refusal(sink, self.setting.form, self.tally, number, text)?;
        self.tally = self.tally.with_refusal();
        Ok(())
    }
}

// Takes in the labels of the image that a line has made of a block, if it has.
fn take_labels(
    alloc: Global,
    labels: &mut LabelTable,
    images: &Images,
    command: &ScriptCommand<'_>,
    block: &Lines,
) -> Result<(), AllocError>
    ensures { OnOk result (labels.new ≡ labels_with_block labels.old images.now
        (request_of_command command.now) (block_lines block.now.left)) }
{
    match *command {
        ScriptCommand::Asm(name, origin) => match images.get(name) {
            Some(bytes) => add_labels(alloc, labels, name, bytes, origin, block),
            None => Ok(()),
        },
        _ => Ok(()),
    }
}

// Adds the labels of an image that a block has made. A block that is a program has labels, so that it is
// memory that lacks where there are none.
fn add_labels(
    alloc: Global,
    labels: &mut LabelTable,
    name: &[u8],
    bytes: &[u8],
    origin: Origin,
    block: &Lines,
) -> Result<(), AllocError>
    ensures { OnOk result (labels.new ≡ labels_with_image labels.old name.now origin (Some bytes.now)
        (labels_of_lines (block_lines block.now.left) origin)) }
{
    let mut after = block.again();
    let count = skip_block(&mut after);
    let origin = origin.address();
    match labels_of_lines(alloc, block, count, origin) {
        Ok(added) => labels.add(name, bytes, origin, &added),
        Err(_) => Err(AllocError),
    }
}

// Keeps other bytes, in the memory of those before where they fit.
fn refill(kept: &mut Vec<u8>, bytes: &[u8]) -> Result<(), AllocError>
    ensures { OnOk result (kept.new.items ≡ bytes.now) }
{
    kept.clear();
    if bytes.is_empty() {
        return Ok(());
    }
    kept.extend_from_slice(bytes)
}
