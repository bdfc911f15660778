//! Lines that go back or look into the past, those that enter the code of modules, and those that are none of
//! the language: what a script answers, and why.

ghost use Rattle.std.specs.Prelude.{◌≡◌, List, IfOk, OnOk};
ghost use Rattle.debug_session.specs.Failing.{EndsAtOnce};

use crate::session::DebugSession;
use debug_modules::{
    ModuleAnswer, PastSetting, answer_module_line, last_steps_asked, line_on, names_on,
    refusal_line, unknown_line,
};
use debug_tables::RunError;
use profile::Sink;
use profile::images::Images;
use profile::text_sink::TextSink;
use std::alloc::AllocError;

impl DebugSession {
    ghost use Rattle.profile.specs.images.Entries.{Entry};
    ghost use Rattle.debug_session.specs.DebugScript.{module_line_answer, past_line_answer, unknown_answer};
    ghost use Rattle.debug_session.specs.DebugState.{IsDebugged};
    ghost use Rattle.debug_session.specs.Naming.{naming_of};
    ghost use Rattle.debug_modules.specs.Reasons.{refusal_reason};
    ghost use Rattle.debug_session.specs.Session.{debug_state};

    /// Answers a tidy line that goes back or looks into the past; any other may be about modules.
    pub(crate) fn past_line<W: Sink>(
        &mut self,
        images: &mut Images,
        sink: &mut W,
        words: &[u8],
        number: usize,
    ) -> Result<(), RunError>
        ensures reported { OnOk result (IsDebugged (W.contents sink.old) (W.contents sink.new)
            (debug_state self.new images.new)
            (past_line_answer self.old.setting (debug_state self.old images.old) number words.now)) }
        ensures setting { self.new.setting ≡ self.old.setting }
        ensures ends { EndsAtOnce W.has_failed sink.old sink.new result }
    {
        if let Some(count) = last_steps_asked(words) {
            let Ok(text) = self.last_steps(images, count) else {
                return Err(RunError::Memory);
            };
            return self.view(sink, text);
        }
        let setting = PastSetting {
            alloc: self.alloc,
            config: self.setting.config,
            budget: self.setting.budget,
        };
        let labels = &self.labels;
        match self
            .past
            .answer_line(setting, &mut self.session, images, labels, words)?
        {
            Some(text) => self.view(sink, text),
            None => self.module_line(images, sink, words, number),
        }
    }

    // Answers a tidy line that enters the code of modules, or says that it is none of the language.
    fn module_line<W: Sink>(
        &mut self,
        images: &Images,
        sink: &mut W,
        words: &[u8],
        number: usize,
    ) -> Result<(), RunError>
        ensures reported { OnOk result (IsDebugged (W.contents sink.old) (W.contents sink.new)
            (debug_state self.new images.now)
            (module_line_answer self.old.setting (debug_state self.old images.now) number words.now)) }
        ensures setting { self.new.setting ≡ self.old.setting }
        ensures ends { EndsAtOnce W.has_failed sink.old sink.new result }
    {
        match answer_module_line(
            self.alloc,
            self.setting.budget,
            &mut self.session,
            &mut self.modes,
            &mut self.past,
            images,
            &self.labels,
            &self.sources,
            number as u64,
            words,
        )? {
            Some(ModuleAnswer::Shown(text)) => self.view(sink, text),
            Some(ModuleAnswer::Entered(taken)) => {
                self.print_steps(sink, taken.text, taken.printed, taken.ending)
            }
            None => self.refuse(sink, words, number),
        }
    }

    // Says that a tidy line is none of the language, and why. Lines EXPECT find a script's answer.
    fn refuse<W: Sink>(&mut self, sink: &mut W, words: &[u8], number: usize) -> Result<(), RunError>
        ensures reported { (images : List Entry) → OnOk result
            (IsDebugged (W.contents sink.old) (W.contents sink.new) (debug_state self.new images)
            (unknown_answer self.old.setting (debug_state self.old images) number words.now)) }
        ensures setting { self.new.setting ≡ self.old.setting }
        ensures ends { EndsAtOnce W.has_failed sink.old sink.new result }
    {
        let reason = self.refusal_reason(words)?;
        let reported = refusal_line(self.alloc, number, reason.as_slice())?;
        let answer = unknown_line(self.alloc, number)?;
        self.answer = answer;
        self.print_refusal(sink, number, reported.as_slice())
    }

    // Why a tidy line is none of the language.
    fn refusal_reason(&self, words: &[u8]) -> Result<Vec<u8>, AllocError>
        ensures { (images : List Entry) → IfOk result (λ text. text.items
            ≡ refusal_reason (naming_of (debug_state self.now images)) words.now) }
    {
        let names = names_on(&self.labels, self.session.machine());
        let numbered = line_on(self.alloc, &self.labels, self.session.machine(), words)?;
        let mut text = TextSink::new(self.alloc);
        match names.push_reason(words, numbered.as_slice(), &mut text) {
            Ok(()) => Ok(text.into_bytes()),
            Err(_) => Err(AllocError),
        }
    }
}
