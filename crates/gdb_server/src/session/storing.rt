//! Bytes stored by GDB.

ghost use Rattle.std.specs.Prelude.{◌≡◌, List, IfOk, OnOk};

use crate::session::session::{GDB_LINE, GdbSession};
use debug_session::{KeptText, PastDeed, put_bytes};
use gdb_machine::store_refusal;
use gdb_packets::ByteRange;
use std::alloc::AllocError;

impl GdbSession {
    ghost use Rattle.profile.specs.images.Entries.{Entry};
    ghost use Rattle.gdb_server.specs.session.Session.{gdb_state};
    ghost use Rattle.gdb_server.specs.session.State.{packet_reply};
    ghost use Rattle.gdb_server.specs.session.Stores.{store_shown, with_bytes_noted};

    /// Stores bytes, and gives the packet that reports it: all of them are stored, or none.
    pub(crate) fn store(
        &mut self,
        range: ByteRange,
        bytes: &[u8],
    ) -> Result<&'static [u8], AllocError>
        ensures reported { (images : List Entry) → IfOk result (λ reply.
            packet_reply (gdb_state self.new images) reply.now
            ≡ store_shown (gdb_state self.old images) range bytes.now) }
    {
        if bytes.len() != range.count as usize {
            return Ok(b"E16");
        }
        match put_bytes(&mut self.debug.session, range.start, bytes) {
            Ok(()) => {
                self.note_bytes(range.start, bytes)?;
                Ok(b"OK")
            }
            Err(fault) => Ok(store_refusal(fault)),
        }
    }

    // Keeps that bytes were stored, if there are any.
    fn note_bytes(&mut self, address: u32, bytes: &[u8]) -> Result<(), AllocError>
        ensures reported { (images : List Entry) → OnOk result (gdb_state self.new images
            ≡ with_bytes_noted (gdb_state self.old images) address bytes.now) }
    {
        if !bytes.is_empty() {
            let kept = KeptText::of(self.alloc, bytes)?;
            self.debug
                .past
                .put(GDB_LINE, PastDeed::Bytes(address, kept))?;
        }
        Ok(())
    }
}
