//! One line of a script, recorded.

ghost use Rattle.std.specs.Prelude.{◌≡◌, ◌<◌, ◌-◌, ◌++◌, ◌==◌, ◌&&◌, not, false, true, take, List, Some, OnOk, option_map, is_some, if◌then◌else◌};
ghost use Rattle.profile.specs.images.Entries.{Entry};
ghost use Rattle.command_shell_lines.specs.Blocks.{lines_in_block};
ghost use Rattle.command_shell_lines.specs.Requests.{opens_block, request_of_command};
ghost use Rattle.debug_lines.specs.DebugRequests.{Script, debug_opens_block};
ghost use Rattle.debug_lines.specs.SteppingRequests.{stepping_in, stepping_request_of};
ghost use Rattle.debug_records.specs.AnswerHeads.{is_block_use, is_remark_use, is_reset_use, is_stepping_use};
ghost use Rattle.debug_records.specs.AnsweredLines.{is_remark_request, is_reset_request, limit_after, next_line, request_meant, state_behind, steps_asked, this_time, typed_line, words_read};
ghost use Rattle.debug_records.specs.LineRecords.{Adds, AreRecorded, AreRecords, IsOfForm, Whole, block_field, line_forms, line_head, step_forms, strings_text};
ghost use Rattle.debug_records.specs.Moments.{IsAlike};
ghost use Rattle.debug_records.specs.Recording.{recording_state, session_machine, twin_machine};
ghost use Rattle.debug_records.specs.Taking.{IsFirstRecorded, IsLineRecorded, forms_behind};
ghost use Rattle.debug_session.specs.Session.{debug_state};
ghost use Rattle.trace_json.specs.MachineState.{MachineState};

use crate::answer_heads::push_answer;
use crate::answers::AnsweredLine;
use crate::counts::LineCounts;
use crate::recorder::{Recorder, Twin};
use crate::records::{head_of, line_head, push_whole};
use crate::taking::take_or_let;
use command_shell_lines::{ScriptCommand, command_of, skip_block};
use debug_lines::{
    DebugCommand, ModeCommand, SteppingCommand, is_script_command, is_script_line, simple_command,
    stepping_in, tidied,
};
use debug_session::{RunError, is_faulted};
use profile::Sink;
use profile::text_lines::Lines;
use profile::text_sink::TextSink;
use std::alloc::{AllocError, Global};
use trace_effects::record_text::{Bracket, RecordText};

/// What a line asks for, as far as records tell lines apart.
#[derive(Clone, Copy)]
pub(crate) enum LineUse<'a> {
    /// Nothing.
    Remark,
    /// Steps.
    Steps,
    /// A block, of which an image is made.
    Block(&'a [u8], Option<u32>),
    /// A fresh machine.
    Reset,
    /// Anything else.
    Other,
}

impl LineUse<'_> {
    /// Whether nothing is asked for.
    pub(crate) fn is_remark(&self) -> bool
        ensures { result ≡ is_remark_use self.now }
    {
        matches!(self, LineUse::Remark)
    }

    fn opens_block(&self) -> bool
        ensures { result ≡ is_block_use self.now }
    {
        matches!(self, LineUse::Block(_, _))
    }

    /// Whether the record of the answer says what differs, where so many steps were taken: these have records
    /// of their own, and RESET shows the whole machine.
    pub(crate) fn may_change(&self, taken: u64) -> bool
        ensures { result ≡ ((taken == 0) && not (is_reset_use self.now)) }
    {
        taken == 0 && !matches!(self, LineUse::Reset)
    }
}

// What a tidy line asks for, or one of a script as it stands.
fn use_of(words: &[u8]) -> LineUse<'_>
    ensures remark { is_remark_use result ≡ is_remark_request (request_meant words.now) }
    ensures stepping { is_stepping_use result ≡ is_some (steps_asked (request_meant words.now)) }
    ensures block { is_block_use result ≡ debug_opens_block (request_meant words.now) }
    ensures resets { is_reset_use result ≡ is_reset_request (request_meant words.now) }
{
    let command = command_of(words);
    if is_script_command(&command) {
        return use_of_script(&command);
    }
    match simple_command(words) {
        DebugCommand::Script(command) => use_of_script(&command),
        DebugCommand::Stepping(_, _) => LineUse::Steps,
        DebugCommand::Remark => LineUse::Remark,
        DebugCommand::Reset => LineUse::Reset,
        _ => LineUse::Other,
    }
}

fn use_of_script<'a>(command: &ScriptCommand<'a>) -> LineUse<'a>
    ensures remark { is_remark_use result ≡ is_remark_request (Script (request_of_command command.now)) }
    ensures stepping { is_stepping_use result ≡ is_some (stepping_in (request_of_command command.now)) }
    ensures block { is_block_use result ≡ opens_block (request_of_command command.now) }
    ensures resets { is_reset_use result ≡ false }
{
    match stepping_in(command) {
        Some(_steps) => LineUse::Steps,
        None => match *command {
            ScriptCommand::Nothing => LineUse::Remark,
            ScriptCommand::Asm(name, origin) => LineUse::Block(name, Some(origin.address())),
            ScriptCommand::Hex(name) => LineUse::Block(name, None),
            _ => LineUse::Other,
        },
    }
}

// The steps that such a line asks for, if it asks for any.
fn steps_of(words: &[u8]) -> Option<SteppingCommand<'_>>
    ensures { option_map stepping_request_of result ≡ steps_asked (request_meant words.now) }
{
    let command = command_of(words);
    if is_script_command(&command) {
        return stepping_in(&command);
    }
    match simple_command(words) {
        DebugCommand::Script(command) => stepping_in(&command),
        DebugCommand::Stepping(_, command) => Some(command),
        _ => None,
    }
}

// How many steps of a line are shown one by one behind such a line.
fn limit_after(words: &[u8], limit: u64) -> u64
    ensures { result ≡ limit_after (request_meant words.now) limit }
{
    if is_script_line(words) {
        return limit;
    }
    match simple_command(words) {
        DebugCommand::Mode(ModeCommand::TraceLimit(most)) => u64::from(most),
        _ => limit,
    }
}

// How many steps a line took, of those that the session counted last.
fn steps_taken(steps: u64, command: &Option<SteppingCommand<'_>>) -> u64
    ensures { result ≡ (if is_some command.now then steps else 0) }
{
    match command {
        Some(_command) => steps,
        None => 0,
    }
}

impl Recorder {
    /// Records a line as it was typed, each time that it is answered: one of a script as it stands, any other
    /// made tidy.
    pub(crate) fn record_typed<W: Sink>(
        &mut self,
        line: &[u8],
        script: &mut Lines,
        sink: &mut W,
    ) -> Result<(), RunError>
        ensures { let before = recording_state self.old script.old in OnOk result (IsFirstRecorded
            (typed_line line.now before) before (recording_state self.new script.new)
            (W.contents sink.old) (W.contents sink.new)) }
    {
        if is_script_line(line) {
            return self.record_line(line, line, None, script, sink);
        }
        let tidy = tidied(self.alloc, line)?;
        let words = tidy.as_slice();
        match self.session.repeated(words)? {
            None => self.record_line(line, words, None, script, sink),
            Some(again) => self.record_repeated(line, again.line, again.count, script, sink),
        }
    }

    // Records a line that is answered so many times, once at least, or until one of them is QUIT.
    fn record_repeated<W: Sink>(
        &mut self,
        line: &[u8],
        words: &[u8],
        count: u32,
        script: &mut Lines,
        sink: &mut W,
    ) -> Result<(), RunError>
        requires { 0 < count }
        ensures { let before = recording_state self.old script.old in OnOk result (IsFirstRecorded
            (this_time line.now words.now 0 count before) before (recording_state self.new script.new)
            (W.contents sink.old) (W.contents sink.new)) }
    {
        for time in 0..count {
            self.record_line(line, words, Some(time), script, sink)?;
            if self.session.has_quit() {
                return Ok(());
            }
        }
        Ok(())
    }

    // Records a line that asks for what these words do, where the twin stands as the session does: one of a
    // script is read as it stands, any other with numbers in place of the words that name places.
    fn record_line<W: Sink>(
        &mut self,
        line: &[u8],
        words: &[u8],
        time: Option<u32>,
        script: &mut Lines,
        sink: &mut W,
    ) -> Result<(), RunError>
        ensures { OnOk result (IsLineRecorded line.now words.now time (recording_state self.old script.old)
            (recording_state self.new script.new) (W.contents sink.old) (W.contents sink.new)) }
    {
        self.twin.stand_with(&self.session)?;
        if is_script_line(line) {
            return self.record_meant(line, words, words, time, script, sink);
        }
        let meant = self.session.words_meant(self.alloc, words)?;
        self.record_meant(line, words, meant.as_slice(), time, script, sink)
    }

    // The same of a line that is read as these words.
    fn record_meant<W: Sink>(
        &mut self,
        line: &[u8],
        words: &[u8],
        meant: &[u8],
        time: Option<u32>,
        script: &mut Lines,
        sink: &mut W,
    ) -> Result<(), RunError>
        requires alike { IsAlike (twin_machine self.old.twin) (session_machine self.old.session) }
        requires read { meant.now
            ≡ words_read (debug_state self.old.session self.old.images) line.now words.now }
        ensures { OnOk result (IsLineRecorded line.now words.now time (recording_state self.old script.old)
            (recording_state self.new script.new) (W.contents sink.old) (W.contents sink.new)) }
    {
        let block = script.again();
        let used = use_of(meant);
        print_line(self.alloc, line, time, used.opens_block(), &block, sink)?;
        let counts = LineCounts::of(&self.session);
        let mut answer = TextSink::new(self.alloc);
        self.session
            .answer_line(&mut self.images, &mut answer, words, script)?;
        let command = steps_of(meant);
        let taken = steps_taken(self.session.steps(), &command);
        let answered = AnsweredLine {
            session: &self.session,
            images: &self.images,
            used,
            words,
            block: &block,
            command,
            before: self.steps,
            limit: self.limit,
            taken,
            counts,
            answer: answer.bytes(),
        };
        self.steps = self.steps.saturating_add(taken);
        self.limit = limit_after(meant, self.limit);
        self.twin.record_answer(&answered, sink)
    }
}

impl Twin {
    // Records the steps and the answer of a line, behind which the twin stands as the session does.
    fn record_answer<W: Sink>(
        &mut self,
        line: &AnsweredLine<'_>,
        sink: &mut W,
    ) -> Result<(), RunError>
        ensures { (m : MachineState) (held : List Entry) → IsAlike (twin_machine self.old) m
            → OnOk result (Adds (AreRecords (forms_behind line.now m (debug_state line.now.session.now held)))
            (W.contents sink.old) (W.contents sink.new)) }
    {
        self.record_taken(line, sink)?;
        let mut head = head_of(self.alloc, b"answer", line.block.number() as u64)?;
        push_answer(&mut head, line)?;
        self.print_answer(line, &head, sink)?;
        self.follow(line)
    }

    // The twin answers a line that took no steps. Behind steps it is halted where the session is: a fault is
    // no step.
    fn follow(&mut self, line: &AnsweredLine<'_>) -> Result<(), RunError> {
        let mut unseen = TextSink::new(self.alloc);
        if line.taken > 0 {
            if is_faulted(&line.session.session) {
                take_or_let(&mut self.session.session, &self.images, &mut unseen, &None)?;
            }
            return Ok(());
        }
        let mut lines = line.block.again();
        self.session
            .answer_line(&mut self.images, &mut unseen, line.words, &mut lines)
    }

    // Records the steps that a line has taken, if there are some, one by one up to the limit and the rest as
    // one: behind them the twin stands as the session does.
    fn record_taken<W: Sink>(
        &mut self,
        line: &AnsweredLine<'_>,
        sink: &mut W,
    ) -> Result<(), RunError>
        ensures records { (m : MachineState) → IsAlike (twin_machine self.old) m → let l = line.now in
            OnOk result (Adds (AreRecords (step_forms (l.taken == 0) l.before l.limit l.taken m
            (session_machine l.session.now))) (W.contents sink.old) (W.contents sink.new)) }
        ensures kept { (line.now.taken == 0) ≡ true → OnOk result
            (twin_machine self.new ≡ twin_machine self.old) }
    {
        if line.taken == 0 {
            return Ok(());
        }
        if line.limit < line.taken {
            self.record_each(line, line.limit, sink)?;
            self.record_rest(line, sink)?;
            return self.stand_with(line.session);
        }
        self.record_each(line, line.taken, sink)?;
        self.stand_with(line.session)
    }
}

// Writes the record of a line, with its block where it opens one.
fn print_line<W: Sink>(
    alloc: Global,
    line: &[u8],
    time: Option<u32>,
    opens_block: bool,
    script: &Lines,
    sink: &mut W,
) -> Result<(), RunError>
    ensures { OnOk result (Adds (IsOfForm (Whole (line_head script.now.number line.now time
        ++ block_field opens_block (take (lines_in_block script.now.left) script.now.left))))
        (W.contents sink.old) (W.contents sink.new)) }
{
    let mut fields = line_head(alloc, script.number(), line, time)?;
    push_block(&mut fields, opens_block, script)?;
    push_whole(sink, &fields)
}

// The lines of a block, with the one that ends it, of a line that opens one.
fn push_block(fields: &mut RecordText, opens_block: bool, script: &Lines) -> Result<(), AllocError>
    requires { fields.old.follows ≡ true }
    ensures { OnOk result (fields.new.bytes.items ≡ fields.old.bytes.items
        ++ block_field opens_block (take (lines_in_block script.now.left) script.now.left)) }
{
    if !opens_block {
        return Ok(());
    }
    let mut after = script.again();
    skip_block(&mut after);
    fields.open_field(b"block", Bracket::List)?;
    push_lines(fields, script, after.number())?;
    fields.close(Bracket::List)
}

// The lines up to the one of a number, and that one.
fn push_lines(text: &mut RecordText, script: &Lines, last: usize) -> Result<(), AllocError>
    ensures { OnOk result (text.new.bytes.items ≡ text.old.bytes.items
        ++ strings_text text.old.follows (take (last - script.now.number) script.now.left)) }
{
    let mut rest = script.again();
    for _count in script.number()..last {
        let Some(line) = rest.next_line() else {
            return Ok(());
        };
        text.string(line)?;
    }
    Ok(())
}
