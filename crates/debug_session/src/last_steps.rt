//! The steps that were taken last, shown as a trace shows them.

ghost use Rattle.std.specs.Prelude.{◌≡◌, ◌++◌, List, Some, IfErr, IfOk, OnOk};
ghost use Rattle.debug_lines.specs.SteppingRequests.{stepping_request_of};
ghost use Rattle.debug_modules.specs.Acts.{moment_after_deed, moment_after_steps, moment_of_script};
ghost use Rattle.debug_modules.specs.Again.{IsAtMoment};
ghost use Rattle.debug_modules.specs.Lines.{stepping_answer};
ghost use Rattle.debug_session.specs.LastSteps.{last_steps_answer, steps_shown_behind, text_with_deed};
ghost use Rattle.debug_session.specs.Session.{debug_state};
ghost use Rattle.debug_tables.specs.Error.{IsLineError};
ghost use Rattle.debug_tables.specs.Session.{script_state};
ghost use Rattle.debug_tables.specs.State.{script_start_state};

use crate::session::DebugSession;
use debug_lines::SteppingCommand;
use debug_modules::{KeptStubs, PastDeed, answer_stepping, deed_again, is_faulted, refused_line};
use debug_tables::counts::StepCounts;
use debug_tables::{RunError, Session, StepModes, Stubs};
use profile::Stop;
use profile::images::Images;
use std::alloc::{AllocError, Global};

impl DebugSession {
    /// The last so many of the steps that were taken, as TRACE shows them. All that was done to the machine
    /// is done again on one of its own.
    ///
    /// # Errors
    ///
    /// `Memory` where the host has none for a fresh machine or the text.
    pub(crate) fn last_steps(&self, images: &mut Images, count: u32) -> Result<Vec<u8>, RunError>
        ensures text { IfOk result (λ text. text.items
            ≡ last_steps_answer self.now.setting (debug_state self.now images.old) count) }
        ensures images { OnOk result (images.new ≡ images.old) }
        ensures errors { IfErr result IsLineError }
    {
        let mut session = Session::on_fresh_machine(self.alloc, self.setting.config, 0)?;
        self.show_acts(&mut session, images, count)
    }

    // The same on a fresh machine.
    fn show_acts(
        &self,
        session: &mut Session,
        images: &mut Images,
        count: u32,
    ) -> Result<Vec<u8>, RunError>
        requires { script_state session.old images.old
            ≡ script_start_state self.now.setting.config images.old 0 }
        ensures text { IfOk result (λ text. text.items
            ≡ last_steps_answer self.now.setting (debug_state self.now images.old) count) }
        ensures images { OnOk result (images.new ≡ images.old) }
        ensures errors { IfErr result IsLineError }
    {
        let counted = u64::from(count).saturating_sub(u64::from(is_faulted(&self.session)));
        let mut skipped = self.past.steps().saturating_sub(counted);
        let mut text = Vec::new(self.alloc);
        let acts = self.past.acts();
        for act in acts {
            self.show_deed(session, images, &act.deed, skipped, &mut text)?;
            skipped = skipped.saturating_sub(act.deed.steps());
        }
        if text.is_empty() {
            return Ok(refused_line(self.alloc, b"NoHistory")?);
        }
        Ok(text)
    }

    // Does something again, and shows its steps but for the first so many. Of a machine in whose place
    // another is made nothing is shown.
    fn show_deed(
        &self,
        session: &mut Session,
        images: &mut Images,
        deed: &PastDeed,
        skipped: u64,
        text: &mut Vec<u8>,
    ) -> Result<(), RunError>
        ensures moment { let s = script_state session.old images.old in
            OnOk result (IsAtMoment s (script_state session.new images.new)
            (moment_after_deed s.images s.sizes deed.now (moment_of_script s))) }
        ensures text { let s = script_state session.old images.old in
            OnOk result (text.new.items ≡ text_with_deed self.now.labels s skipped deed.now
            (moment_of_script s) text.old.items) }
        ensures errors { IfErr result IsLineError }
    {
        if deed.is_anew() {
            text.clear();
            return deed_again(session, images, deed);
        }
        if session.machine().stop().is_some() {
            return deed_again(session, images, deed);
        }
        let Some((command, count)) = deed.steps_behind(skipped) else {
            return deed_again(session, images, deed);
        };
        let mut modes = StepModes::new();
        modes.stubs = deed.stubs();
        self.show_steps(session, images, &modes, skipped, &command, count, text)
    }

    // Takes so many steps with some stubs, then those that the line takes, which are shown, and what it left.
    fn show_steps(
        &self,
        session: &mut Session,
        images: &mut Images,
        modes: &StepModes,
        skipped: u64,
        command: &SteppingCommand<'_>,
        count: u64,
        text: &mut Vec<u8>,
    ) -> Result<(), RunError>
        ensures moment { let shown = steps_shown_behind modes.now self.now.labels
            (script_state session.old images.old) skipped count (stepping_request_of command.now) in
            OnOk result (IsAtMoment shown.now (script_state session.new images.new)
            (moment_after_steps modes.now.stubs shown.now.images shown.now.left
            (moment_of_script shown.now))) }
        ensures text { OnOk result (text.new.items ≡ text.old.items
            ++ (steps_shown_behind modes.now self.now.labels (script_state session.old images.old)
            skipped count (stepping_request_of command.now)).text) }
        ensures errors { IfErr result IsLineError }
    {
        steps_again(self.alloc, session, images, &modes.stubs, skipped)?;
        session.set_budget(count);
        session.set_last(Stop::Budget);
        self.push_steps(session, images, modes, command, count, text)?;
        let left = session.left();
        steps_again(self.alloc, session, images, &modes.stubs, left)
    }

    // Takes the steps of a line, and shows so many of them.
    fn push_steps(
        &self,
        session: &mut Session,
        images: &Images,
        modes: &StepModes,
        command: &SteppingCommand<'_>,
        count: u64,
        text: &mut Vec<u8>,
    ) -> Result<(), AllocError>
        ensures state { OnOk result (script_state session.new images.now
            ≡ (stepping_answer modes.now self.now.labels (Some count)
            (script_state session.old images.now) (stepping_request_of command.now)).now) }
        ensures text { OnOk result (text.new.items ≡ text.old.items
            ++ (stepping_answer modes.now self.now.labels (Some count)
            (script_state session.old images.now) (stepping_request_of command.now)).text) }
    {
        let shown = answer_stepping(
            self.alloc,
            session,
            images,
            modes,
            &mut StepCounts::new(self.alloc),
            &self.labels,
            command,
            Some(count),
        )?;
        text.extend_from_slice(shown.text.as_slice())
    }
}

// Takes so many steps with some stubs.
fn steps_again(
    alloc: Global,
    session: &mut Session,
    images: &mut Images,
    stubs: &Stubs,
    count: u64,
) -> Result<(), RunError>
    ensures moment { let s = script_state session.old images.old in
        OnOk result (IsAtMoment s (script_state session.new images.new)
        (moment_after_steps stubs.now s.images count (moment_of_script s))) }
    ensures errors { IfErr result IsLineError }
{
    let kept = KeptStubs::of(alloc, stubs)?;
    deed_again(session, images, &PastDeed::Steps(kept, count))
}
