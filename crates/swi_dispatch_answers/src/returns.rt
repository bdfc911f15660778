//! How a guest comes back from a call (RISC OS 3 Programmer's Reference Manual, "An introduction to
//! SWIs").

ghost use Rattle.std.specs.Prelude.{◌≡◌, ◌<◌, ◌^◌};
ghost use Rattle.swi_dispatch_answers.specs.Returns.{state_after_return};

use arm_core::{ADDRESS_LIMIT, Cpu, Mode, Psr};

/// The return address, with the caller's status, goes to the link register of supervisor mode.
pub fn return_to(cpu: &mut Cpu, caller: Psr, is_refused: bool, next: u32)
    ensures { cpu.new ≡ state_after_return caller cpu.old is_refused next }
{
    let address = next % ADDRESS_LIMIT / 4 * 4;
    cpu.set_overflow(is_refused);
    cpu.set_register_in(Mode::Supervisor, 14, caller.bits() + address);
    cpu.set_pc(next);
}
