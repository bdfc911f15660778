//! Requests that change what stands, without a step.

ghost use Rattle.std.specs.Prelude.{◌≡◌, List, IfOk, OnOk, codes};
ghost use Rattle.gdb_machine.specs.Changes.{CanBeMade};
ghost use Rattle.gdb_server.specs.session.Requests.{watch_kind};

use crate::session::session::{GDB_LINE, GdbSession};
use command_shell_lines::{Origin, RegisterNumber};
use debug_session::PastDeed;
use gdb_machine::{
    RegisterWrite, Watch, WatchKind, break_refusal, decoded, wanted_write, watch_refusal,
};
use gdb_packets::{ByteRange, PointKind};
use std::alloc::AllocError;

impl GdbSession {
    ghost use Rattle.profile.specs.images.Entries.{Entry};
    ghost use Rattle.gdb_server.specs.session.Changes.{add_break_shown, with_change};
    ghost use Rattle.gdb_server.specs.session.Changes.{set_register_shown, store_pairs_shown};
    ghost use Rattle.gdb_server.specs.session.Requests.{add_point_shown, remove_point_shown};
    ghost use Rattle.gdb_server.specs.session.Session.{gdb_state};
    ghost use Rattle.gdb_server.specs.session.State.{packet_reply};

    /// Sets a register, and gives the packet that reports it.
    pub(crate) fn set_register(
        &mut self,
        number: u32,
        pairs: &[u8],
    ) -> Result<&'static [u8], AllocError>
        ensures reported { (images : List Entry) → IfOk result (λ reply.
            packet_reply (gdb_state self.new images) reply.now
            ≡ set_register_shown (gdb_state self.old images) number pairs.now) }
    {
        match wanted_write(number, pairs) {
            Some(write) => {
                self.make_change(write)?;
                Ok(b"OK")
            }
            None => Ok(b"E16"),
        }
    }

    fn make_change(&mut self, change: RegisterWrite) -> Result<(), AllocError>
        requires { CanBeMade change }
        ensures reported { (images : List Entry) → OnOk result (gdb_state self.new images
            ≡ with_change (gdb_state self.old images) change) }
    {
        match change {
            RegisterWrite::Present(number, value) => {
                let register = RegisterNumber::new(number);
                let deed = PastDeed::Register(register, value);
                self.debug.past.put(GDB_LINE, deed)?;
                self.debug.session.set_register(number, value);
            }
            RegisterWrite::Place(address) => {
                let at = Origin::new(address);
                self.debug.past.put(GDB_LINE, PastDeed::Place(at))?;
                self.debug.past.put(GDB_LINE, PastDeed::Woken)?;
                self.debug.session.set_pc(address);
                self.debug.session.wake();
            }
            RegisterWrite::Status(status) => {
                self.debug.past.put(GDB_LINE, PastDeed::Status(status))?;
                self.debug.session.set_psr(status);
            }
            RegisterWrite::Banked(mode, number, value) => {
                let register = RegisterNumber::new(number);
                let deed = PastDeed::Banked(mode, register, value);
                self.debug.past.put(GDB_LINE, deed)?;
                self.debug.session.set_register_in(mode, number, value);
            }
        }
        Ok(())
    }

    /// Stores bytes that come as pairs of digits.
    pub(crate) fn store_pairs(
        &mut self,
        range: ByteRange,
        pairs: &[u8],
    ) -> Result<&'static [u8], AllocError>
        ensures reported { (images : List Entry) → IfOk result (λ reply.
            packet_reply (gdb_state self.new images) reply.now
            ≡ store_pairs_shown (gdb_state self.old images) range pairs.now) }
    {
        match decoded(self.alloc, pairs)? {
            Some(bytes) => self.store(range, bytes.as_slice()),
            None => Ok(b"E16"),
        }
    }

    /// Sets a break or a watch.
    pub(crate) fn add_point(&mut self, kind: PointKind, range: ByteRange) -> &'static [u8]
        ensures reported { (images : List Entry) → packet_reply (gdb_state self.new images) result.now
            ≡ add_point_shown (gdb_state self.old images) kind range }
    {
        let Some(kind) = watch_kind(kind) else {
            return self.add_break(range);
        };
        match self.watches.add(Watch { kind, range }) {
            Ok(()) => b"OK",
            Err(error) => watch_refusal(error),
        }
    }

    fn add_break(&mut self, range: ByteRange) -> &'static [u8]
        ensures reported { (images : List Entry) → packet_reply (gdb_state self.new images) result.now
            ≡ add_break_shown (gdb_state self.old images) range }
    {
        if range.count != 4 {
            return b"E16";
        }
        match self.breaks.add(range.start) {
            Ok(()) => b"OK",
            Err(error) => break_refusal(error),
        }
    }

    /// Takes a break or a watch away.
    pub(crate) fn remove_point(&mut self, kind: PointKind, range: ByteRange)
        ensures reported { (images : List Entry) → packet_reply (gdb_state self.new images) (codes "OK")
            ≡ remove_point_shown (gdb_state self.old images) kind range }
    {
        match watch_kind(kind) {
            Some(kind) => self.watches.remove(Watch { kind, range }),
            None => self.breaks.remove(range.start),
        }
    }
}

// What a watch looks for; a break is none.
fn watch_kind(kind: PointKind) -> Option<WatchKind>
    ensures { result ≡ watch_kind kind }
{
    match kind {
        PointKind::Break => None,
        PointKind::StoreWatch => Some(WatchKind::Store),
        PointKind::LoadWatch => Some(WatchKind::Load),
        PointKind::AccessWatch => Some(WatchKind::Access),
    }
}
