//! A session on a machine of its own.

ghost use Rattle.std.specs.Prelude.{◌≡◌, List, IfOk};

use crate::session::Session;
use debugger::Machine;
use profile::Config;
use std::alloc::{AllocError, Global};

impl Session {
    ghost use Rattle.profile.specs.images.Entries.{Entry};
    ghost use Rattle.command_shell.specs.Session.{script_state};
    ghost use Rattle.command_shell.specs.State.{script_start_state};

    /// A session on a fresh machine of these sizes, with the whole budget: where a script begins.
    ///
    /// # Errors
    ///
    /// Memory ran out.
    pub fn on_fresh_machine(
        alloc: Global,
        config: Config,
        budget: u64,
    ) -> Result<Session, AllocError>
        ensures { IfOk result (λ session. (images : List Entry)
            → script_state session images ≡ script_start_state config images budget) }
    {
        let machine = Machine::new(alloc, config)?;
        Ok(Session::new(alloc, machine, budget))
    }
}
