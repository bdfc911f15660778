//! Errors: how a call that errs ends, and the block that the error stands in (RISC OS 3
//! Programmer's Reference Manual, "Generating and handling errors").

ghost use Rattle.std.specs.Prelude.{ℕ, ◌≡◌, true};

use crate::guest::Guest;
use crate::halt::Halt;
use profile::memory_map::ERROR_BLOCK;
use profile::{ErrorNumber, Fault};
use swi_dispatch_plans::{Call, Refusal, error_at, write_error};

impl Guest {
    ghost use Rattle.swi_dispatch_guest.specs.GuestState.{state_of};
    ghost use Rattle.swi_dispatch_guest.specs.MachineState.{silent};
    ghost use Rattle.swi_dispatch_guest.specs.Calls.{generated_refusal};
    ghost use Rattle.swi_dispatch_guest.specs.Errors.{error_number, with_error};
    ghost use Rattle.swi_dispatch_guest.specs.Returns.{gone_back, error_answered, outcome_of_error};
    ghost use Rattle.arm_run.specs.State.{register_of};
    ghost use Rattle.arm_run.specs.Psr.{Psr};

    /// A call that errs goes back with its error, or is a fault, and then nothing is changed.
    pub(crate) fn end_with_error(&mut self, call: Call, refusal: Refusal)
        ensures { silent (state_of self.new) ≡ outcome_of_error (state_of self.old) call.is_x
            (error_answered call.caller (silent (state_of self.old)) call.next refusal) }
    {
        if !call.is_x {
            let number = self.answered_number(refusal);
            return self.halt_with(Halt::Fault(Fault::ErrorStop(number)));
        }
        self.point_to_error(refusal);
        self.go_back(call.caller, true, call.next);
    }

    // The number that R0 would point to once an error is answered, wherever the guest goes on. It
    // already points to an error of the guest's own.
    #[tactic(auto, using(crate::proofs::ErrorNumbers::number_kept))]
    fn answered_number(&self, refusal: Refusal) -> u32
        ensures { (caller : Psr) (next : ℕ) → result
            ≡ error_number (gone_back caller (with_error (state_of self.now) refusal) true next) }
    {
        match refusal {
            Refusal::System(error) => self.system_number(error),
            Refusal::Own => error_at(&self.memory, self.cpu.register(0)),
        }
    }

    // The error block would hold the system's error.
    fn system_number(&self, error: ErrorNumber) -> u32
        ensures { (caller : Psr) (next : ℕ) → result
            ≡ error_number (gone_back caller (with_error (state_of self.now)
            (Refusal.System error)) true next) }
    {
        self.cpu.known();
        error.number()
    }

    /// OS_GenerateError: the error of the block that R0 points to.
    #[tactic(auto, unfolding(os_heap::specs::Store::store_of))]
    pub(crate) fn own_error(&self) -> Refusal
        ensures { result ≡ generated_refusal (state_of self.now) (register_of (state_of self.now).cpu 0) }
    {
        let at = self.cpu.register(0);
        if at % 4 == 0 && self.memory.translate(at).is_some() {
            Refusal::Own
        } else {
            Refusal::System(ErrorNumber::BadPointer)
        }
    }

    // R0 points to the error's block. The guest's own stands there already.
    fn point_to_error(&mut self, refusal: Refusal)
        ensures { state_of self.new ≡ with_error (state_of self.old) refusal }
    {
        match refusal {
            Refusal::System(error) => self.put_error(error),
            Refusal::Own => {}
        }
    }

    fn put_error(&mut self, error: ErrorNumber)
        ensures { state_of self.new ≡ with_error (state_of self.old) (Refusal.System error) }
    {
        self.cpu.set_register(0, ERROR_BLOCK);
        write_error(&mut self.memory, error);
    }
}
