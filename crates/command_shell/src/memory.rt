//! The lines that change the machine from outside: SET and POKE.

ghost use Rattle.std.specs.Prelude.{◌≡◌, true, List, OnOk, OnErr};

use crate::answers::print_refused;
use crate::session::Session;
use command_shell_lines::{RegisterNumber, WordAddress};
use profile::{Sink, WriteFault};

impl Session {
    ghost use Rattle.profile.specs.images.Entries.{Entry};
    ghost use Rattle.command_shell.specs.Memory.{set_answer, poke_answer};
    ghost use Rattle.command_shell.specs.Session.{script_state};
    ghost use Rattle.command_shell.specs.State.{IsAnswered};

    /// Sets a register of the present mode.
    pub(crate) fn set(&mut self, register: RegisterNumber, value: u32)
        ensures { (images : List Entry)
            → script_state self.new images ≡ (set_answer (script_state self.old images) register
            value).state }
    {
        self.machine.set_register(register.number(), value);
    }

    /// Stores a word as a guest's store would, or shows the fault.
    pub(crate) fn poke<W: Sink>(
        &mut self,
        sink: &mut W,
        address: WordAddress,
        value: u32,
    ) -> Result<(), WriteFault>
        ensures reported { (images : List Entry) → OnOk result
            (IsAnswered (W.contents sink.old) (W.contents sink.new)
            (script_state self.new images)
            (poke_answer (script_state self.old images) address value)) }
        ensures flag { OnErr result (W.has_failed sink.new ≡ true) }
        ensures same_flag { OnOk result (W.has_failed sink.new ≡ W.has_failed sink.old) }
    {
        match self.machine.poke(address.address(), value) {
            Ok(()) => Ok(()),
            Err(fault) => print_refused(sink, fault.name().as_bytes()),
        }
    }
}
