//! What halts a machine for good.

ghost use Rattle.std.specs.Prelude.{◌≡◌};

use profile::{Fault, Stop};

/// Why a machine takes no further step. A budget and a break are answers of a run and never stand
/// in the machine.
#[derive(Clone, Copy)]
pub enum Halt {
    /// The guest called OS_Exit.
    Exit,
    /// A step ended in a fault.
    Fault(Fault),
}

impl Halt {
    ghost use Rattle.swi_dispatch_guest.specs.MachineState.{stop_of};

    /// The same as the answer of a step or a run.
    pub fn stop(self) -> Stop
        ensures { result ≡ stop_of self }
    {
        match self {
            Halt::Exit => Stop::Exit,
            Halt::Fault(fault) => Stop::Fault(fault),
        }
    }
}
