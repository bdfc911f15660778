//! A `run`: the program begins anew, with what GDB's `load` sent last.

ghost use Rattle.std.specs.Prelude.{◌≡◌, List, IfErr, IfOk, OnOk, map};
ghost use Rattle.debug_session.specs.Error.{IsLineError};
ghost use Rattle.gdb_packets.specs.Requests.{gdb_request};

use crate::session::session::{GdbAnswer, GdbSession};
use debug_session::RunError;
use gdb_packets::{Request, is_run_request, request_of};
use profile::images::Images;

impl GdbSession {
    ghost use Rattle.profile.specs.images.Entries.{Entry};
    ghost use Rattle.gdb_server.specs.session.Programs.{after_packets, request_answered, run_answered};
    ghost use Rattle.gdb_server.specs.session.Session.{gdb_state, IsGdbAnswered};

    /// The program counter.
    pub(crate) fn pc(&self) -> u32
        ensures { (images : List Entry) → result ≡ (gdb_state self.now images).debug.script.machine.cpu.pc }
    {
        self.debug.session.machine().cpu().pc()
    }

    /// Answers a request. A `run` starts what the files gave and these packets of a load, or is an error,
    /// where a file can't be read.
    ///
    /// # Errors
    ///
    /// `Memory`, and the session ends there.
    pub(crate) fn answer_request(
        &mut self,
        images: &mut Images,
        request: &Request<'_>,
        load: &[Vec<u8>],
        lacks: bool,
    ) -> Result<GdbAnswer, RunError>
        ensures reported { IfOk result (λ answer. IsGdbAnswered (gdb_state self.new images.new) answer
            (request_answered lacks (map (λ p. p.items) load.now) (gdb_state self.old images.old)
            (gdb_request request.now))) }
        ensures errors { IfErr result IsLineError }
    {
        if !is_run_request(request) {
            return self.answer(images, request);
        }
        if lacks {
            return self.with_reply(b"E02");
        }
        self.run(images, load)
    }

    // Begins the program anew, takes the packets of a load once more, and shows why it stands.
    fn run(&mut self, images: &mut Images, load: &[Vec<u8>]) -> Result<GdbAnswer, RunError>
        ensures reported { IfOk result (λ answer. IsGdbAnswered (gdb_state self.new images.new) answer
            (run_answered (map (λ p. p.items) load.now) (gdb_state self.old images.old))) }
        ensures errors { IfErr result IsLineError }
    {
        self.answer(images, &Request::RunProgram)?;
        self.take_packets(images, load)?;
        self.answer(images, &Request::Reason)
    }

    // Takes packets, one after another, whose answers aren't shown.
    fn take_packets(&mut self, images: &mut Images, packets: &[Vec<u8>]) -> Result<(), RunError>
        ensures reported { OnOk result (gdb_state self.new images.new
            ≡ after_packets (map (λ p. p.items) packets.now) (gdb_state self.old images.old)) }
        ensures errors { IfErr result IsLineError }
    {
        for packet in packets {
            self.answer(images, &request_of(packet.as_slice()))?;
        }
        Ok(())
    }
}
