//! Laws of the written machine.

ghost use Rattle.std.specs.Prelude.{ℕ, List};
ghost use Rattle.swi_dispatch_plans.specs.Entries.{Entry};
ghost use Rattle.swi_dispatch_guest.specs.MachineState.{MachineState};
ghost use Rattle.swi_dispatch_guest.specs.Run.{RunsOn};

/// Runs add up: where a run of `n` steps ends with its budget used up, that run and one of `m`
/// steps after it are the run of `n + m`, in the machine, the bytes printed, the count and the
/// stop.
pub fn runs_add_up()
    ensures { (images : List Entry) (breaks : List ℕ) (s : MachineState) (n m : ℕ) →
        RunsOn images breaks s n m }
{}
