//! A session with GDB, and how one of its requests is answered.

ghost use Rattle.std.specs.Prelude.{◌≡◌, [], None, Some, List, IfOk, IfErr, is_some, option_map};
ghost use Rattle.debug_session.specs.Error.{IsLineError};
ghost use Rattle.gdb_server.specs.session.State.{debug_settings, gdb_start};

use debug_session::{DebugSession, DebugSettings, ReportForm, RunError, RunMeter};
use gdb_machine::{GdbBreaks, GdbStop, UnderWay, Watches};
use gdb_packets::Request;
use profile::images::Images;
use profile::{Config, Stop};
use std::alloc::{AllocError, Global};

/// The line under which what GDB does is kept in the past of the machine: no script has it.
pub(crate) const GDB_LINE: u64 = 0;

/// What a session is made with.
#[derive(Clone, Copy)]
pub struct GdbSettings {
    /// The sizes of its machines.
    pub config: Config,
    /// How many steps each of the monitor's lines may take.
    pub budget: u64,
    /// How many steps a run may take.
    pub most: u64,
    /// Whether a run stays before the program's end, so that one can go back from there.
    pub stays: bool,
}

/// A session with GDB: a session of debugging scripts, and what GDB has asked for.
#[derive(Drop)]
pub struct GdbSession {
    pub(crate) alloc: Global,
    // The lines that a machine begins with.
    pub(crate) start: Vec<u8>,
    pub(crate) debug: DebugSession,
    pub(crate) watches: Watches,
    // The breaks that GDB set.
    pub(crate) breaks: GdbBreaks,
    // The lines of the modules that GDB was told are there.
    pub(crate) libraries: Vec<u8>,
    pub(crate) most: u64,
    pub(crate) stays: bool,
    // The run or the search that is under way.
    pub(crate) going: Option<UnderWay>,
    pub(crate) stop: GdbStop,
    pub(crate) has_ended: bool,
}

/// What a request is answered with: text for the user, and then one packet at most.
#[derive(Drop)]
pub struct GdbAnswer {
    /// The text.
    pub reported: Vec<u8>,
    /// The packet.
    pub reply: Option<Vec<u8>>,
}

impl GdbSession {
    ghost use Rattle.profile.specs.images.Entries.{Entry};
    ghost use Rattle.gdb_packets.specs.Requests.{gdb_request};
    ghost use Rattle.gdb_server.specs.session.Requests.{gdb_answered};
    ghost use Rattle.gdb_server.specs.session.Session.{gdb_state, IsGdbAnswered};

    /// A session on a fresh machine, whose first lines have not been answered yet.
    ///
    /// # Errors
    ///
    /// Memory ran out.
    pub fn new(alloc: Global, setting: GdbSettings, start: &[u8]) -> Result<GdbSession, AllocError>
        ensures state { IfOk result (λ session. (images : List Entry)
            → gdb_state session images ≡ gdb_start setting start.now images) }
    {
        let most = setting.most;
        let stays = setting.stays;
        let start = Vec::from_slice(alloc, start)?;
        let debug = DebugSession::new(alloc, settings_of(setting))?;
        Ok(GdbSession {
            alloc,
            start,
            debug,
            watches: Watches::new(),
            breaks: GdbBreaks::new(),
            libraries: Vec::new(alloc),
            most,
            stays,
            going: None,
            stop: GdbStop::Stepped,
            has_ended: false,
        })
    }

    /// Whether the debugger is gone: no request after it is answered.
    pub fn has_ended(&self) -> bool
        ensures { (images : List Entry) → result ≡ (gdb_state self.now images).has_ended }
    {
        self.has_ended
    }

    /// The last stop of the machine, if there was one.
    pub fn last(&self) -> Option<Stop>
        ensures { (images : List Entry) → result ≡ (gdb_state self.now images).debug.script.last }
    {
        self.debug.session.last()
    }

    /// Whether a run or a search is under way.
    pub fn is_running(&self) -> bool
        ensures { (images : List Entry) → result ≡ is_some (gdb_state self.now images).going }
    {
        self.going.is_some()
    }

    /// Answers a request.
    ///
    /// # Errors
    ///
    /// `Memory`, and the session ends there.
    #[tactic(auto, unfolding(crate::specs::session::Requests::gdb_answered))]
    pub fn answer(
        &mut self,
        images: &mut Images,
        request: &Request<'_>,
    ) -> Result<GdbAnswer, RunError>
        ensures reported { IfOk result (λ answer. IsGdbAnswered (gdb_state self.new images.new) answer
            (gdb_answered (gdb_state self.old images.old) (gdb_request request.now))) }
        ensures errors { IfErr result IsLineError }
    {
        match self.look(request)? {
            Some(reply) => Ok(GdbAnswer {
                reported: Vec::new(self.alloc),
                reply: Some(reply),
            }),
            None => self.act(images, request),
        }
    }

    // A packet without text for the user.
    pub(crate) fn with_reply(&self, reply: &[u8]) -> Result<GdbAnswer, RunError>
        ensures reported { IfOk result (λ answer. answer.reported.items ≡ []) }
        ensures reply { IfOk result (λ answer. option_map (λ packet. packet.items) answer.reply
            ≡ Some reply.now) }
        ensures errors { IfErr result IsLineError }
    {
        let reply = Vec::from_slice(self.alloc, reply)?;
        Ok(GdbAnswer {
            reported: Vec::new(self.alloc),
            reply: Some(reply),
        })
    }

    // Neither text nor a packet.
    pub(crate) fn without_reply(&self) -> GdbAnswer
        ensures reported { result.reported.items ≡ [] }
        ensures reply { result.reply ≡ None }
    {
        GdbAnswer {
            reported: Vec::new(self.alloc),
            reply: None,
        }
    }
}

// What lines are answered with: as answers.
fn settings_of(setting: GdbSettings) -> DebugSettings
    ensures { result ≡ debug_settings setting }
{
    DebugSettings {
        config: setting.config,
        budget: setting.budget,
        form: ReportForm::Answers,
        meter: RunMeter::silent(),
        keeps_past: true,
    }
}
