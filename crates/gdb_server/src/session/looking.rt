//! Requests that look: they leave the session as it is.

ghost use Rattle.std.specs.Prelude.{◌≡◌, List, IfOk, option_map};
ghost use Rattle.gdb_packets.specs.Requests.{gdb_request};

use crate::session::session::GdbSession;
use gdb_machine::{
    all_registers, description_part, libraries_part, memory_shown, one_register, stop_packet,
};
use gdb_packets::{Request, fixed_reply, threads};
use std::alloc::AllocError;

impl GdbSession {
    ghost use Rattle.profile.specs.images.Entries.{Entry};
    ghost use Rattle.gdb_server.specs.session.Looks.{look_reply};
    ghost use Rattle.gdb_server.specs.session.Session.{gdb_state};

    /// The packet that a request is answered with which only looks; `None` for other requests.
    pub(crate) fn look(&self, request: &Request<'_>) -> Result<Option<Vec<u8>>, AllocError>
        ensures { (images : List Entry) → IfOk result (λ reply. option_map (λ packet. packet.items) reply
            ≡ look_reply (gdb_state self.now images) (gdb_request request.now)) }
    {
        let machine = self.debug.session.machine();
        let reply = match request {
            Request::Reason => stop_packet(self.alloc, machine.cpu(), self.stop),
            Request::Registers => all_registers(self.alloc, machine.cpu()),
            Request::Register(number) => one_register(self.alloc, machine.cpu(), *number),
            Request::Memory(range) => memory_shown(self.alloc, machine.memory(), *range),
            Request::Description(range) => description_part(self.alloc, *range),
            Request::Libraries(range) => libraries_part(self.alloc, machine.instances(), *range),
            Request::FirstThreads => Vec::from_slice(self.alloc, threads(self.stop.is_gone())),
            _ => return self.fixed(fixed_reply(request)),
        };
        Ok(Some(reply?))
    }

    fn fixed(&self, reply: Option<&'static [u8]>) -> Result<Option<Vec<u8>>, AllocError>
        ensures { IfOk result (λ reported. option_map (λ packet. packet.items) reported
            ≡ option_map (λ text. text.now) reply.entry) }
    {
        match reply {
            Some(reply) => Ok(Some(Vec::from_slice(self.alloc, reply)?)),
            None => Ok(None),
        }
    }
}
