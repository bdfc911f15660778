//! Lines that have to do with the past are answered.

ghost use Rattle.std.specs.Prelude.{◌≡◌, List, option_map, IfErr, IfOk, OnOk};
ghost use Rattle.debug_tables.specs.Error.{IsLineError};
ghost use Rattle.debug_tables.specs.Session.{script_state};
ghost use Rattle.debug_history.specs.Answers.{IsPastAnswered, back_until, last_in_past, past_after_past, past_answered, past_asked, past_command, past_gone_back, past_line_answered, script_after_past, undone};
ghost use Rattle.debug_history.specs.Past.{line_of_last_act};
ghost use Rattle.debug_history.specs.declared.search.Sought.TheVariants.{Stood};
ghost use Rattle.debug_labels.specs.place_views.Places.{where_text};
ghost use Rattle.profile.specs.images.Entries.{Entry};
ghost use Rattle.debug_tables.specs.GuestState.{state_of};

use crate::lines::{PastCommand, past_line};
use crate::past::Past;
use crate::search::Sought;
use crate::texts::last_seen_line;
use command_shell_lines::debug_words::{no_history, push_step, undone_line, when_line};
use debug_labels::LabelTable;
use debug_labels::place_views::{line_on, show_where};
use debug_tables::{Machine, RunError, Session};
use profile::Config;
use profile::images::Images;
use profile::text_sink::TextSink;
use std::alloc::{AllocError, Global};

/// What machines are made of, how many steps a line may take, and where answers are made.
#[derive(Clone, Copy)]
pub struct PastSetting {
    /// The memory for answers and machines.
    pub alloc: Global,
    /// The sizes of the machine.
    pub config: Config,
    /// How many steps each line may take.
    pub budget: u64,
}

impl Past {
    /// Answers a tidy line where it has to do with the past, as it stands or with numbers in place of the
    /// words that name places; any other is left.
    ///
    /// # Errors
    ///
    /// The host has no memory for a fresh machine or the answer.
    pub fn answer_line(
        &mut self,
        setting: PastSetting,
        session: &mut Session,
        images: &mut Images,
        labels: &LabelTable,
        line: &[u8],
    ) -> Result<Option<Vec<u8>>, AllocError>
        ensures script { let s = script_state session.old images.old in
            OnOk result (script_state session.new images.new ≡ script_after_past s
            (past_line_answered labels.now setting.config setting.budget s self.old line.now)) }
        ensures past { let s = script_state session.old images.old in
            OnOk result (self.new ≡ past_after_past self.old
            (past_line_answered labels.now setting.config setting.budget s self.old line.now)) }
        ensures text { let s = script_state session.old images.old in
            IfOk result (λ text. option_map (λ shown. shown.items) text ≡ option_map (λ a. a.text)
            (past_line_answered labels.now setting.config setting.budget s self.old line.now)) }
    {
        let answered = match command_on(setting.alloc, labels, session.machine(), line)? {
            None => return Ok(None),
            // apart, since the prover loses the type within where the whole is passed on
            Some(PastCommand::Last(sought)) => {
                self.answer(setting, session, images, labels, PastCommand::Last(sought))
            }
            Some(command) => self.answer(setting, session, images, labels, command),
        };
        match answered {
            Ok(text) => Ok(Some(text)),
            Err(_) => Err(AllocError),
        }
    }

    /// Answers a line that has to do with the past; the session's machine goes back where it asks for that.
    ///
    /// # Errors
    ///
    /// `Memory` where the host has none for a fresh machine or the answer.
    pub fn answer(
        &mut self,
        setting: PastSetting,
        session: &mut Session,
        images: &mut Images,
        labels: &LabelTable,
        command: PastCommand,
    ) -> Result<Vec<u8>, RunError>
        ensures script { let a = past_answered labels.now setting.config setting.budget
            (script_state session.old images.old) self.old command in
            OnOk result (script_state session.new images.new ≡ a.script) }
        ensures past { let a = past_answered labels.now setting.config setting.budget
            (script_state session.old images.old) self.old command in OnOk result (self.new ≡ a.past) }
        ensures text { let a = past_answered labels.now setting.config setting.budget
            (script_state session.old images.old) self.old command in
            IfOk result (λ text. text.items ≡ a.text) }
        ensures errors { IfErr result IsLineError }
    {
        if !self.is_kept() {
            return Ok(no_history(setting.alloc)?);
        }
        let steps = self.steps();
        match command {
            PastCommand::Back(count) if u64::from(count) <= steps => {
                self.back(setting, session, images, labels, steps - u64::from(count))
            }
            PastCommand::BackTo(step) if u64::from(step) <= self.all_steps() => {
                self.back(setting, session, images, labels, u64::from(step))
            }
            PastCommand::Back(_) | PastCommand::BackTo(_) => Ok(no_history(setting.alloc)?),
            PastCommand::BackUntil(address) => {
                self.back_until(setting, session, images, labels, address.address())
            }
            PastCommand::Undo => self.undo_last(setting, session, images),
            PastCommand::When => Ok(when_line(setting.alloc, steps, self.all_steps())?),
            PastCommand::Last(sought) => {
                let found = self.last(setting.alloc, images, setting.config, sought)?;
                Ok(last_seen_line(setting.alloc, &sought, steps, found)?)
            }
        }
    }

    // The session's machine goes back to before the step of that number.
    fn back(
        &mut self,
        setting: PastSetting,
        session: &mut Session,
        images: &mut Images,
        labels: &LabelTable,
        step: u64,
    ) -> Result<Vec<u8>, RunError>
        ensures answer { IfOk result (λ text. IsPastAnswered (past_gone_back labels.now setting.config
            setting.budget (script_state session.old images.old) self.old step)
            (script_state session.new images.new) self.new text.items) }
        ensures errors { IfErr result IsLineError }
    {
        self.go_back(session, images, setting.config, setting.budget, step)?;
        let mut text = place_text(setting.alloc, session, labels)?;
        push_step(&mut text, step)?;
        Ok(text)
    }

    // The session's machine goes back to before the last step from an address.
    fn back_until(
        &mut self,
        setting: PastSetting,
        session: &mut Session,
        images: &mut Images,
        labels: &LabelTable,
        address: u32,
    ) -> Result<Vec<u8>, RunError>
        ensures answer { let s = script_state session.old images.old in IfOk result (λ text.
            IsPastAnswered (back_until labels.now setting.config setting.budget s self.old
            (last_in_past setting.config s self.old (Stood address)))
            (script_state session.new images.new) self.new text.items) }
        ensures errors { IfErr result IsLineError }
    {
        let sought = Sought::Stood(address);
        match self.last(setting.alloc, images, setting.config, sought)? {
            Some(found) => self.back(setting, session, images, labels, found.step),
            None => Ok(Vec::from_slice(setting.alloc, b"refused NotThere\n")?),
        }
    }

    // The session's machine becomes as the last line that did something found it.
    fn undo_last(
        &mut self,
        setting: PastSetting,
        session: &mut Session,
        images: &mut Images,
    ) -> Result<Vec<u8>, RunError>
        ensures answer { IfOk result (λ text. IsPastAnswered (undone setting.config setting.budget
            (script_state session.old images.old) self.old (line_of_last_act self.old.acts))
            (script_state session.new images.new) self.new text.items) }
        ensures errors { IfErr result IsLineError }
    {
        let Some(line) = self.last_line() else {
            return Ok(no_history(setting.alloc)?);
        };
        self.undo(session, images, setting.config, setting.budget, line)?;
        Ok(undone_line(setting.alloc, line, self.steps())?)
    }
}

// What a tidy line asks for that has to do with the past.
fn command_on(
    alloc: Global,
    labels: &LabelTable,
    machine: &Machine,
    line: &[u8],
) -> Result<Option<PastCommand>, AllocError>
    ensures { IfOk result (λ command. command
        ≡ past_command labels.now (state_of machine.now.guest) line.now) }
{
    let mode = machine.cpu().psr().mode;
    if let Some(command) = past_line(mode, line) {
        return Ok(Some(command));
    }
    let numbered = line_on(alloc, labels, machine, line)?;
    Ok(past_line(mode, numbered.as_slice()))
}

// Where the machine stands, as text.
fn place_text(alloc: Global, session: &Session, labels: &LabelTable) -> Result<Vec<u8>, AllocError>
    ensures { (images : List Entry) → IfOk result (λ text. text.items
        ≡ where_text labels.now (script_state session.now images).machine) }
{
    let mut text = TextSink::new(alloc);
    match show_where(labels, session.machine(), &mut text) {
        Ok(()) => Ok(text.into_bytes()),
        Err(_) => Err(AllocError),
    }
}
