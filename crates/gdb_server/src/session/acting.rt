//! Requests that do more than look.

ghost use Rattle.std.specs.Prelude.{◌≡◌, [], None, List, IfErr, IfOk, option_map};
ghost use Rattle.debug_session.specs.Error.{IsLineError};
ghost use Rattle.gdb_packets.specs.Requests.{gdb_request};

use crate::session::session::{GdbAnswer, GdbSession};
use debug_session::RunError;
use gdb_machine::{GdbStop, UnderWay};
use gdb_packets::{Going, Request};
use profile::Stop;
use profile::images::Images;
use std::alloc::AllocError;

impl GdbSession {
    ghost use Rattle.profile.specs.images.Entries.{Entry};
    ghost use Rattle.gdb_server.specs.session.Requests.{act_shown, gdb_change_shown, host_answered};
    ghost use Rattle.gdb_server.specs.session.Session.{gdb_state, IsGdbAnswered};
    ghost use Rattle.gdb_server.specs.session.State.{GdbAnswered};

    /// Answers a request that doesn't only look.
    pub(crate) fn act(
        &mut self,
        images: &mut Images,
        request: &Request<'_>,
    ) -> Result<GdbAnswer, RunError>
        ensures reported { IfOk result (λ answer. IsGdbAnswered (gdb_state self.new images.new) answer
            (act_shown (gdb_state self.old images.old) (gdb_request request.now))) }
        ensures errors { IfErr result IsLineError }
    {
        match request {
            Request::Continue => self.go(images, Going::On, None),
            Request::ContinueWith(signal) => self.go(images, Going::On, Some(*signal)),
            Request::Step => self.go(images, Going::Once, None),
            Request::StepWith(signal) => self.go(images, Going::Once, Some(*signal)),
            Request::StepRange(places) => self.go(images, Going::Within(*places), None),
            Request::StepBack => self.step_back(images),
            Request::ContinueBack => self.continue_back(images),
            Request::HostAnswer(asks) => self.host_answered(images, *asks),
            Request::Line(pairs) => self.answer_line(images, pairs),
            Request::RunProgram => self.run_program(images),
            Request::Restart => self.restart(images),
            _ => self.change(request),
        }
    }

    // Goes on with a run or a search, once the other side has answered, unless it is to stop.
    fn host_answered(&mut self, images: &mut Images, asks: bool) -> Result<GdbAnswer, RunError>
        ensures reported { IfOk result (λ answer. IsGdbAnswered (gdb_state self.new images.new) answer
            (host_answered (gdb_state self.old images.old) asks)) }
        ensures errors { IfErr result IsLineError }
    {
        let Some(going) = self.going else {
            return Ok(self.without_reply());
        };
        if asks {
            return self.stand(GdbStop::Asked);
        }
        match going {
            UnderWay::Run(going) => self.slice(images, going),
            UnderWay::Search(so_far) => self.search_on(images, so_far),
        }
    }

    // Changes what stands, without a step.
    fn change(&mut self, request: &Request<'_>) -> Result<GdbAnswer, RunError>
        ensures reported { (images : List Entry) → IfOk result (λ answer.
            IsGdbAnswered (gdb_state self.new images) answer
            (gdb_change_shown (gdb_state self.old images) (gdb_request request.now))) }
        ensures errors { IfErr result IsLineError }
    {
        let reply: Result<&[u8], AllocError> = match request {
            Request::SetRegister(number, pairs) => self.set_register(*number, pairs),
            Request::StorePairs(range, pairs) => self.store_pairs(*range, pairs),
            Request::StoreBytes(range, bytes) => self.store(*range, bytes),
            Request::AddPoint(kind, range) => Ok(self.add_point(*kind, *range)),
            Request::RemovePoint(kind, range) => {
                self.remove_point(*kind, *range);
                Ok(b"OK")
            }
            Request::KillProgram => {
                self.going = None;
                self.stop = GdbStop::Ran(Stop::Exit);
                Ok(b"OK")
            }
            Request::Detach => {
                self.has_ended = true;
                Ok(b"OK")
            }
            _ => {
                self.has_ended = true;
                return Ok(self.without_reply());
            }
        };
        self.with_reply(reply?)
    }
}
