//! A step, or what a stub does in its place.

ghost use Rattle.std.specs.Prelude.{◌≡◌, ◌<◌, true, List, OnOk, OnErr};
ghost use Rattle.std.specs.Io.KnownBytes.{Appends};
ghost use Rattle.profile.specs.images.Entries.{Entry};
ghost use Rattle.command_shell.specs.Calls.{step_made};
ghost use Rattle.command_shell.specs.Session.{script_state};
ghost use Rattle.debug_tables.specs.Stubs.{script_after_deed, script_with_settings, stubbed_step};

use crate::byte_writes::put_bytes;
use crate::stub_deeds::{BankSetting, StubDeed};
use crate::stubs::Stubs;
use command_shell::Session;
use profile::images::Images;
use profile::{Sink, WriteFault};

impl Stubs {
    /// Takes a step, and writes what it prints. Where a stub does something in its place, that is one step
    /// too.
    ///
    /// # Errors
    ///
    /// `WriteFault` where the sink failed.
    pub fn take_step<W: Sink>(
        &self,
        session: &mut Session,
        images: &Images,
        sink: &mut W,
    ) -> Result<(), WriteFault>
        requires { 0 < (script_state session.old images.now).left }
        ensures state { OnOk result (script_state session.new images.now
            ≡ step_made (script_state session.old images.now)
            (stubbed_step self.now images.now (script_state session.old images.now).machine)) }
        ensures text { OnOk result (Appends (W.contents sink.old) (W.contents sink.new)
            (stubbed_step self.now images.now (script_state session.old images.now).machine).printed) }
        ensures flag { OnErr result (W.has_failed sink.new ≡ true) }
        ensures same_flag { OnOk result (W.has_failed sink.new ≡ W.has_failed sink.old) }
    {
        match self.ahead(session.machine()) {
            Some(deed) => {
                deed.act(session);
                Ok(())
            }
            None => {
                session.take_step(images, sink)?;
                Ok(())
            }
        }
    }
}

impl StubDeed {
    /// Does it in place of a step.
    pub fn act(&self, session: &mut Session)
        requires left { (images : List Entry) → 0 < (script_state session.old images).left }
        ensures { (images : List Entry) → script_state session.new images
            ≡ script_after_deed self.now (script_state session.old images) }
    {
        let left = session.left() - 1;
        session.set_budget(left);
        let _written = put_bytes(session, self.at, self.bytes.as_slice());
        set_registers(session, self.settings.as_slice());
        session.set_psr(self.status);
        session.set_pc(self.next);
    }
}

fn set_registers(session: &mut Session, settings: &[BankSetting])
    ensures { (images : List Entry) → script_state session.new images
        ≡ script_with_settings settings.now (script_state session.old images) }
{
    for set in settings {
        session.set_register_in(set.mode, set.register.number(), set.value);
    }
}
