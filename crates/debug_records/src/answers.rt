//! The answer to a line, recorded.

ghost use Rattle.std.specs.Prelude.{◌≡◌, ◌==◌, codes, OnOk};
ghost use Rattle.debug_records.specs.AnswerHeads.{is_remark_use, is_reset_use};
ghost use Rattle.debug_records.specs.LineRecords.{Adds, IsOfForm, answer_form};
ghost use Rattle.debug_records.specs.Recording.{session_machine, twin_machine};
ghost use Rattle.debug_records.specs.Taking.{IsShown};
ghost use Rattle.trace_json.specs.MachineState.{MachineState};
ghost use Rattle.trace_json.specs.Moments.{IsCopy, ShowsChanges};

use crate::answer_heads::without_end;
use crate::counts::LineCounts;
use crate::lines::LineUse;
use crate::recorder::Twin;
use crate::records::{push_record, push_whole};
use command_shell_lines::skip_block;
use debug_lines::SteppingCommand;
use debug_session::{DebugSession, RunError};
use profile::Sink;
use profile::images::Images;
use profile::text_lines::{Lines, cut};
use std::alloc::{AllocError, Global};
use trace_effects::record_text::{Bracket, RecordText};
use trace_json::{
    Machine, MachineCopy, push_changed_store, push_changes, push_image, push_state, push_stop,
};

/// A line that a session has answered.
#[derive(Clone, Copy)]
pub(crate) struct AnsweredLine<'a> {
    pub(crate) session: &'a DebugSession,
    pub(crate) images: &'a Images,
    /// What it asked for, by which words, and the lines behind it.
    pub(crate) used: LineUse<'a>,
    pub(crate) words: &'a [u8],
    pub(crate) block: &'a Lines<'a>,
    /// The steps that it asked for, how many were taken before it, how many of it are shown one by one, and
    /// how many it took.
    pub(crate) command: Option<SteppingCommand<'a>>,
    pub(crate) before: u64,
    pub(crate) limit: u64,
    pub(crate) taken: u64,
    /// How many lines passed, failed and were refused before it.
    pub(crate) counts: LineCounts,
    /// What was written.
    pub(crate) answer: &'a [u8],
}

impl Twin {
    /// Writes the record of an answer, behind what it begins with: of a remark nothing; what the line
    /// changed, with what stands before it; or of a line that took steps where they ended, and of RESET the
    /// whole machine.
    pub(crate) fn print_answer<W: Sink>(
        &mut self,
        line: &AnsweredLine<'_>,
        head: &RecordText,
        sink: &mut W,
    ) -> Result<(), RunError>
        ensures { let l = line.now in OnOk result (Adds (IsOfForm (answer_form (is_remark_use l.used)
            (l.taken == 0) (is_reset_use l.used) head.now.bytes.items (twin_machine self.old)
            (session_machine l.session.now))) (W.contents sink.old) (W.contents sink.new)) }
    {
        if line.used.is_remark() {
            return push_whole(sink, head);
        }
        if line.used.may_change(line.taken) {
            self.show_changed(line)?;
            return self.print_moment(head, sink);
        }
        self.text.clear();
        let pushed = match line.used {
            LineUse::Reset => push_reset(&mut self.text, line.session.machine()),
            _ => push_ending(self.alloc, &mut self.text, line.session),
        };
        pushed?;
        self.push_places(Some(line.session))?;
        push_record(sink, head, &self.text)
    }

    // Writes those of what a line changed, and of what stands before that.
    fn show_changed(&mut self, line: &AnsweredLine<'_>) -> Result<(), AllocError>
        ensures { let s = twin_machine self.old in OnOk result
            (IsShown (codes "pc") s.cpu.pc s (session_machine line.now.session.now) self.new.changes) }
    {
        let before = MachineCopy::of(self.alloc, self.session.machine())?;
        self.clear();
        self.push_changed(&before, line)
    }

    // The same against a copy of the machine before.
    fn push_changed(
        &mut self,
        before: &MachineCopy,
        line: &AnsweredLine<'_>,
    ) -> Result<(), AllocError>
        ensures { (s : MachineState) → IsCopy before.now s → OnOk result (ShowsChanges (codes "pc") s.cpu.pc s
            (session_machine line.now.session.now) self.old.changes self.new.changes) }
    {
        self.push_made(line)?;
        let machine = line.session.machine();
        push_changes(self.alloc, &mut self.changes, before, machine)?;
        push_changed_store(self.alloc, &mut self.text, before, machine)?;
        self.push_places(Some(line.session))
    }

    // The image that a block has made, if it has made one; where a line ended that took none of its steps.
    fn push_made(&mut self, line: &AnsweredLine<'_>) -> Result<(), AllocError>
        ensures { OnOk result (self.new.changes ≡ self.old.changes) }
    {
        let counts = LineCounts::of(line.session);
        let (name, origin) = match line.used {
            LineUse::Steps => return push_ending(self.alloc, &mut self.text, line.session),
            LineUse::Block(name, origin) if line.counts.refused == counts.refused => (name, origin),
            _ => return Ok(()),
        };
        let Some(bytes) = line.images.get(name) else {
            return Ok(());
        };
        let length = bytes.len();
        let count = skip_block(&mut line.block.again());
        let source = match origin {
            Some(origin) => Some((line.block, count, origin)),
            None => None,
        };
        push_image(self.alloc, &mut self.front, name, length, source)?;
        if origin.is_some() {
            return self.know(name);
        }
        Ok(())
    }
}

// The whole machine, behind RESET.
fn push_reset(text: &mut RecordText, machine: &Machine) -> Result<(), AllocError> {
    text.open_field(b"reset", Bracket::Object)?;
    push_state(text, machine)?;
    text.close(Bracket::Object)
}

// Where a stop that ended a line stands, or the number of the error.
fn push_ending(
    alloc: Global,
    text: &mut RecordText,
    session: &DebugSession,
) -> Result<(), AllocError> {
    let (word, behind) = cut(session.answer(), b' ');
    if word == b"stop".as_slice() {
        let stop = session.session.last();
        let at = session.machine().cpu().pc();
        let (cause, _rest) = cut(behind.unwrap_or(b""), b' ');
        return push_stop(alloc, text, without_end(cause), stop, at);
    }
    if word == b"error".as_slice() {
        let number = session.machine().error_number();
        return text.number_field(b"error", u64::from(number));
    }
    Ok(())
}
