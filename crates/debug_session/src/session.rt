//! What a debugging script works on, and how its lines are answered, one after another.

ghost use Rattle.std.specs.Prelude.{◌≡◌, ◌+◌, false, List, [], Err, IfOk, IfErr, OnOk, length};
ghost use Rattle.debug_tables.specs.Error.{IsLineError};
ghost use Rattle.profile.specs.Output.{AddsFront, Writes};

use command_shell_lines::FailedBlocks;
use debug_modules::{CheckTally, DebugModes, LabelTable, Past, ReportForm, RunMeter, push_summary};
use debug_tables::{RunError, Session};
use profile::images::Images;
use profile::stop::stop_status;
use profile::text_lines::Lines;
use profile::{Config, Sink, WriteFault};
use std::alloc::{AllocError, Global};

/// What a debugging script is answered on.
#[derive(Clone, Copy)]
pub struct DebugSettings {
    /// The sizes of its machines.
    pub config: Config,
    /// How many steps each of its lines may take.
    pub budget: u64,
    /// The form of its answers.
    pub form: ReportForm,
    /// What RUN and STEP say how far they are.
    pub meter: RunMeter,
    /// Whether what is done to its machines is kept, for lines that go back.
    pub keeps_past: bool,
}

/// What a debugging script works on beside the images.
pub struct DebugSession {
    pub(crate) alloc: Global,
    /// What it is answered on.
    pub setting: DebugSettings,
    /// The script's own session, which a face may move on by itself.
    pub session: Session,
    pub(crate) labels: LabelTable,
    /// The texts of ASM blocks, by the names of the images that they have made.
    pub(crate) sources: Images,
    pub(crate) failed: FailedBlocks,
    pub(crate) modes: DebugModes,
    pub(crate) answer: Vec<u8>,
    pub(crate) output: Vec<u8>,
    pub(crate) steps: u64,
    pub(crate) tally: CheckTally,
    pub(crate) has_quit: bool,
    /// What was done to the machine: who moves it on by itself says here how.
    pub past: Past,
    /// Memory for the answer to a line, used again for that to the next.
    pub(crate) scratch: Vec<u8>,
}

impl Drop for DebugSession {
    fn drop(self) {
        let DebugSession {
            alloc: _alloc,
            setting: _setting,
            session: _session,
            labels: _labels,
            sources: _sources,
            failed: _failed,
            modes: _modes,
            answer: _answer,
            output: _output,
            steps: _steps,
            tally: _tally,
            has_quit: _has_quit,
            past: _past,
            scratch: _scratch,
        } = self;
    }
}

impl DebugSession {
    ghost use Rattle.debug_tables.specs.Memory.{script_with_budget};
    ghost use Rattle.profile.specs.images.Entries.{Entry};
    ghost use Rattle.debug_session.specs.DebugScript.{debug_lines_answer};
    ghost use Rattle.debug_session.specs.DebugState.{IsDebugged, debug_start_state};
    ghost use Rattle.debug_session.specs.Failing.{ReportsWriteFault};
    ghost use Rattle.debug_modules.specs.Reports.{summary_text};
    ghost use Rattle.debug_session.specs.ExitStatus.{debug_status};
    ghost use Rattle.debug_session.specs.Session.{debug_state};

    /// A session on a fresh machine, before the first line.
    ///
    /// # Errors
    ///
    /// Memory ran out.
    pub fn new(alloc: Global, setting: DebugSettings) -> Result<DebugSession, AllocError>
        ensures state { IfOk result (λ session. (images : List Entry)
            → debug_state session images ≡ debug_start_state setting images) }
        ensures setting { IfOk result (λ session. session.setting ≡ setting) }
    {
        Ok(DebugSession {
            alloc,
            setting,
            session: Session::on_fresh_machine(alloc, setting.config, setting.budget)?,
            labels: LabelTable::new(alloc),
            sources: Images::new(),
            failed: FailedBlocks::new(alloc),
            modes: DebugModes::new(alloc),
            answer: Vec::new(alloc),
            output: Vec::new(alloc),
            steps: 0,
            tally: CheckTally::new(),
            has_quit: false,
            past: Past::new(alloc, setting.keeps_past),
            scratch: Vec::new(alloc),
        })
    }

    /// Whether QUIT was among the lines: those that follow are not answered.
    pub fn has_quit(&self) -> bool
        ensures { (images : List Entry) → result ≡ (debug_state self.now images).has_quit }
    {
        self.has_quit
    }

    /// Lines are answered again, where QUIT was among those before.
    pub fn go_on(&mut self)
        ensures reported { (images : List Entry) → debug_state self.new images
            ≡ record (debug_state self.old images) { has_quit = false } }
        ensures setting { self.new.setting ≡ self.old.setting }
    {
        self.has_quit = false;
    }

    /// The steps that come next may take the whole budget.
    pub fn renew_budget(&mut self)
        ensures reported { (images : List Entry) → debug_state self.new images
            ≡ record (debug_state self.old images) {
              script = script_with_budget (debug_state self.old images).script self.old.setting.budget;
            } }
        ensures setting { self.new.setting ≡ self.old.setting }
    {
        self.session.set_budget(self.setting.budget);
    }

    /// The exit status of a program whose lines these were: without EXPECT lines that of the last
    /// stop, 0, 1 or 3; with some 0 where all of them passed and nothing was refused, else 5.
    pub fn status(&self) -> u8
        ensures { (images : List Entry) → result ≡ debug_status (debug_state self.now images) }
    {
        if self.tally.is_untested() {
            stop_status(self.session.last())
        } else if self.tally.failed == 0 && self.tally.refused == 0 {
            0
        } else {
            5
        }
    }

    /// Writes what stands after the last line.
    pub fn print_summary<W: Sink>(&self, sink: &mut W) -> Result<(), WriteFault>
        ensures { (images : List Entry) → Writes W.contents W.has_failed sink.old sink.new result
            (summary_text self.now.setting.form (debug_state self.now images).tally) }
    {
        push_summary(sink, self.setting.form, self.tally)
    }

    /// Answers all lines that are left, up to a line QUIT.
    ///
    /// # Errors
    ///
    /// `Memory` and `WriteFault`, when a part of the answers may stand written.
    pub fn answer_lines<W: Sink>(
        &mut self,
        images: &mut Images,
        sink: &mut W,
        script: &mut Lines,
    ) -> Result<(), RunError>
        ensures reported { OnOk result (IsDebugged (W.contents sink.old) (W.contents sink.new)
            (debug_state self.new images.new)
            (debug_lines_answer self.old.setting script.old.number (debug_state self.old images.old)
            script.old.left)) }
        ensures counted { OnOk result (script.new.number + length script.new.left
            ≡ script.old.number + length script.old.left) }
        ensures setting { self.new.setting ≡ self.old.setting }
        ensures memory { result ≡ Err RunError.Memory
            → AddsFront (W.contents sink.old) (W.contents sink.new)
            (debug_lines_answer self.old.setting script.old.number (debug_state self.old images.old)
            script.old.left).text }
        ensures write_fault { ReportsWriteFault W.has_failed sink.old sink.new result }
        ensures errors { IfErr result IsLineError }
        ensures same_flag { OnOk result (W.has_failed sink.new ≡ W.has_failed sink.old) }
    {
        while !self.has_quit {
            let Some(line) = script.next_line() else {
                return Ok(());
            };
            self.answer_line(images, sink, line, script)?;
        }
        Ok(())
    }
}
