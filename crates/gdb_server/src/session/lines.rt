//! Lines of the debugger's own language, by the monitor and where a machine begins.

ghost use Rattle.std.specs.Prelude.{◌≡◌, List, Some, IfErr, IfOk, OnOk};
ghost use Rattle.debug_session.specs.Error.{IsLineError};
ghost use Rattle.profile.specs.text_sink.TextSink.{sink_text_of};

use crate::session::session::{GdbAnswer, GdbSession};
use debug_session::RunError;
use gdb_machine::{GdbStop, decoded};
use profile::images::Images;
use profile::text_lines::Lines;
use profile::text_sink::TextSink;

impl GdbSession {
    ghost use Rattle.profile.specs.images.Entries.{Entry};
    ghost use Rattle.gdb_server.specs.session.Runs.{after_begin, begin_shown, begun_anew, line_decoded, monitor_shown};
    ghost use Rattle.gdb_server.specs.session.Runs.{restart_shown, run_program_shown};
    ghost use Rattle.gdb_server.specs.session.Session.{gdb_state, IsGdbAnswered};

    /// Answers a line of a debugging script, which may take the whole budget.
    pub(crate) fn answer_line(
        &mut self,
        images: &mut Images,
        pairs: &[u8],
    ) -> Result<GdbAnswer, RunError>
        ensures reported { IfOk result (λ answer. IsGdbAnswered (gdb_state self.new images.new) answer
            (monitor_shown (gdb_state self.old images.old) pairs.now)) }
        ensures errors { IfErr result IsLineError }
    {
        match decoded(self.alloc, pairs)? {
            Some(line) => self.answer_decoded(images, line.as_slice()),
            None => self.with_reply(b"E16"),
        }
    }

    fn answer_decoded(&mut self, images: &mut Images, line: &[u8]) -> Result<GdbAnswer, RunError>
        ensures reported { IfOk result (λ answer. IsGdbAnswered (gdb_state self.new images.new) answer
            (line_decoded (gdb_state self.old images.old) (Some line.now))) }
        ensures errors { IfErr result IsLineError }
    {
        let reply = Vec::from_slice(self.alloc, b"OK")?;
        let mut reported = TextSink::new(self.alloc);
        let mut none = Lines::new(b"");
        self.debug.go_on();
        self.debug
            .answer_line(images, &mut reported, line, &mut none)?;
        Ok(GdbAnswer {
            reported: reported.into_bytes(),
            reply: Some(reply),
        })
    }

    /// Answers the lines that a machine begins with, on a fresh machine, and gives their answers.
    ///
    /// # Errors
    ///
    /// `Memory`.
    pub fn begin(&mut self, images: &mut Images) -> Result<Vec<u8>, RunError>
        ensures reported { IfOk result (λ text. text.items
            ≡ (begin_shown (gdb_state self.old images.old)).text) }
        ensures state { OnOk result (gdb_state self.new images.new
            ≡ begun_anew (gdb_state self.old images.old)
            (begin_shown (gdb_state self.old images.old))) }
        ensures errors { IfErr result IsLineError }
    {
        let reported = self.begin_anew(images)?;
        self.going = None;
        self.stop = GdbStop::Stepped;
        Ok(reported.into_bytes())
    }

    // A fresh machine, and the lines that it begins with.
    fn begin_anew(&mut self, images: &mut Images) -> Result<TextSink, RunError>
        ensures reported { IfOk result (λ text. sink_text_of text
            ≡ (begin_shown (gdb_state self.old images.old)).text) }
        ensures state { OnOk result (gdb_state self.new images.new
            ≡ after_begin (gdb_state self.old images.old)
            (begin_shown (gdb_state self.old images.old))) }
        ensures errors { IfErr result IsLineError }
    {
        self.debug.start_anew()?;
        self.debug.go_on();
        let mut reported = TextSink::new(self.alloc);
        let mut lines = Lines::new(self.start.as_slice());
        self.debug.answer_lines(images, &mut reported, &mut lines)?;
        self.libraries = Vec::new(self.alloc);
        Ok(reported)
    }

    /// Begins anew, and reports the first stop. GDB takes no text before that, so what the lines that
    /// the machine begins with are answered is left out.
    pub(crate) fn run_program(&mut self, images: &mut Images) -> Result<GdbAnswer, RunError>
        ensures reported { IfOk result (λ answer. IsGdbAnswered (gdb_state self.new images.new) answer
            (run_program_shown (gdb_state self.old images.old))) }
        ensures errors { IfErr result IsLineError }
    {
        self.begin_anew(images)?;
        self.stand(GdbStop::Stepped)
    }

    /// Begins anew without a packet.
    pub(crate) fn restart(&mut self, images: &mut Images) -> Result<GdbAnswer, RunError>
        ensures reported { IfOk result (λ answer. IsGdbAnswered (gdb_state self.new images.new) answer
            (restart_shown (gdb_state self.old images.old))) }
        ensures errors { IfErr result IsLineError }
    {
        self.begin(images)?;
        Ok(self.without_reply())
    }
}
