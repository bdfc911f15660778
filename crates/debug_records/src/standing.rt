//! Whether the twin stands where the session does.

ghost use Rattle.std.specs.Prelude.{◌≡◌, true, OnOk};
ghost use Rattle.debug_records.specs.Moments.{IsAlike};
ghost use Rattle.debug_records.specs.Recording.{session_machine, twin_machine};

use crate::recorder::Twin;
use arm_core::Cpu;
use debug_session::{DebugSession, RunError};
use trace_effects::shown_registers::{WrittenRegisters, shown_registers};
use trace_effects::shown_words::changed_words;

impl Twin {
    /// Compares the twin's core and memory with those of the session.
    ///
    /// # Errors
    ///
    /// `WriteFault` where they differ: nothing more is recorded then; and `Memory`.
    pub(crate) fn stand_with(&self, session: &DebugSession) -> Result<(), RunError>
        ensures { OnOk result (IsAlike (twin_machine self.now) (session_machine session.now)) }
    {
        let machine = self.session.machine();
        let other = session.machine();
        if !has_same_core(machine.cpu(), other.cpu()) {
            return Err(RunError::WriteFault);
        }
        let words = changed_words(self.alloc, machine.memory(), other.memory())?;
        if words.as_slice().is_empty() {
            Ok(())
        } else {
            Err(RunError::WriteFault)
        }
    }
}

// Whether two cores are the same.
fn has_same_core(first: &Cpu, second: &Cpu) -> bool
    ensures { result ≡ true → first.now ≡ second.now }
{
    if first.pc() != second.pc() || first.psr() != second.psr() {
        return false;
    }
    shown_registers(first, second, &WrittenRegisters::new()).is_empty()
}
