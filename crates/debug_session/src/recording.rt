//! What those need of a debugging session who record its steps one by one.

ghost use Rattle.std.specs.Prelude.{◌≡◌, ◌<◌, List, option_map, IfOk};

use crate::session::DebugSession;
use debug_lines::RepeatedLine;
use debug_modules::{ImagePlace, names_on};
use debug_tables::Stubs;
use profile::images::Images;
use profile::{Sink, WriteFault};
use std::alloc::AllocError;

impl DebugSession {
    ghost use Rattle.debug_lines.specs.Repeats.{count_and_line};
    ghost use Rattle.debug_session.specs.Naming.{naming_of, repeated_now};
    ghost use Rattle.debug_session.specs.Session.{debug_state};
    ghost use Rattle.debug_tables.specs.Session.{script_state};
    ghost use Rattle.profile.specs.images.Entries.{Entry};

    /// Where the image of a name stands now, of those that were assembled.
    pub fn image_place(&self, name: &[u8]) -> Option<ImagePlace> {
        names_on(&self.labels, self.session.machine()).image_place(name)
    }

    /// The stubs that answer SWIs which the machine doesn't have.
    pub fn stubs(&self) -> &Stubs
        ensures { result.now ≡ self.now.modes.steps.stubs }
    {
        &self.modes.steps.stubs
    }

    /// Takes a step, or lets a stub answer it.
    ///
    /// # Errors
    ///
    /// `WriteFault` where the sink failed.
    pub fn take_step<W: Sink>(&mut self, images: &Images, sink: &mut W) -> Result<(), WriteFault>
        requires { 0 < (script_state self.old.session images.now).left }
    {
        self.modes
            .steps
            .stubs
            .take_step(&mut self.session, images, sink)
    }

    /// What is repeated, and how often, of a tidy line.
    ///
    /// # Errors
    ///
    /// Memory ran out.
    pub fn repeated<'a>(&self, words: &'a [u8]) -> Result<Option<RepeatedLine<'a>>, AllocError>
        ensures { (images : List Entry) → IfOk result (λ repeated. option_map count_and_line repeated
            ≡ repeated_now (naming_of (debug_state self.now images)) words.now) }
    {
        self.repeated_now(words)
    }
}
