//! The lines of a debugging script, answered one after another, each once.

ghost use Rattle.std.specs.Prelude.{◌≡◌, ◌⊎◌, [], true, IfOk, OnOk, IfNone, IfSome};
ghost use Rattle.std.specs.Str.Lines.{lines};
ghost use Rattle.debug_program.specs.Answering.{place_of_answering, IsNextAnswered};

use crate::front_lines::cut_lines;
use debug_session::DebugSession;
use profile::images::Images;
use profile::text_lines::Lines;
use profile::text_sink::TextSink;
use std::alloc::{AllocError, Global};

/// A line of a debugging script, with its block where it opens one, and the answer.
#[derive(Drop)]
pub struct AnsweredLine<'a> {
    /// The line, or the lines, with their ends.
    pub lines: &'a [u8],
    /// What it is answered.
    pub answer: Vec<u8>,
}

/// A debugging script under way: what its lines work on, and those that are left, as lines and as they
/// stand.
pub struct ScriptAnswering<'a> {
    session: DebugSession,
    images: Images,
    place: Lines<'a>,
    rest: &'a [u8],
}

impl Drop for ScriptAnswering<'_> {
    fn drop(self) {
        let ScriptAnswering {
            session: _session,
            images: _images,
            place: _place,
            rest: _rest,
        } = self;
    }
}

impl<'a> ScriptAnswering<'a> {
    /// Before the first line of a script.
    pub fn new(session: DebugSession, images: Images, script: &'a [u8]) -> ScriptAnswering<'a>
        ensures session { result.session ≡ session }
        ensures images { result.images ≡ images }
        ensures place { result.place ≡ record { left = lines script.entry.now; number = 0 } }
        ensures rest { result.rest.now ≡ script.entry.now }
    {
        ScriptAnswering {
            session,
            images,
            place: Lines::new(script),
            rest: script,
        }
    }

    /// The session, as the lines that were answered left it.
    pub fn session(&self) -> &DebugSession
        ensures { result.now ≡ self.now.session }
    {
        &self.session
    }

    /// The next line, or where it opens a block its block too, and what it is answered; `None` after
    /// the last, and after QUIT.
    ///
    /// # Errors
    ///
    /// Memory ran out.
    pub fn next_line(&mut self, alloc: Global) -> Result<Option<AnsweredLine<'a>>, AllocError>
        requires { lines self.old.rest.now ≡ self.old.place.left }
        ensures some { IfOk result (λ next. IfSome next (λ line. IsNextAnswered
            self.old.session.setting (place_of_answering self.old) (place_of_answering self.new) line)) }
        ensures rest { IfOk result (λ next. IfSome next (λ _.
            lines self.new.rest.now ≡ self.new.place.left)) }
        ensures setting { OnOk result (self.new.session.setting ≡ self.old.session.setting) }
        ensures none { IfOk result (λ next. IfNone next ((self.new ≡ self.old)
            × ((self.old.place.left ≡ []) ⊎ (self.old.session.has_quit ≡ true)))) }
    {
        if self.session.has_quit() {
            return Ok(None);
        }
        let number = self.place.number();
        let Some(line) = self.place.next_line() else {
            return Ok(None);
        };
        let mut answer = TextSink::new(alloc);
        match self
            .session
            .answer_line(&mut self.images, &mut answer, line, &mut self.place)
        {
            Ok(()) => {}
            Err(_) => return Err(AllocError),
        }
        let (lines, rest) = cut_lines(self.rest, self.place.number() - number);
        self.rest = rest;
        let answer = answer.into_bytes();
        Ok(Some(AnsweredLine { lines, answer }))
    }
}
