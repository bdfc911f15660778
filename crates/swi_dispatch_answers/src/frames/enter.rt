//! The core on its way into module code.

ghost use Rattle.std.specs.Prelude.{◌≡◌, ◌<◌};
ghost use Rattle.swi_dispatch_answers.specs.frames.Entering.{state_after_entry, swi_entered, code_entered};

use address_map::RETURN_GATE;
use arm_core::{Cpu, Mode};
use instances_table::plans::{Code, private_word};

/// The core goes to the SWI handler of a module: R11 is the number of the SWI in its chunk, R12 the
/// address of the private word of the instance in `slot` (RISC OS 3 Programmer's Reference Manual,
/// "Modules", "SWI handler code").
pub fn enter_swi(cpu: &mut Cpu, at: u32, number: u32, slot: u32)
    requires { slot < 64 }
    ensures { cpu.new ≡ swi_entered cpu.old at number slot }
{
    enter(cpu, at);
    cpu.set_register_in(Mode::User, 11, number % 64);
    cpu.set_register_in(Mode::User, 12, private_word(slot));
}

/// The core goes to an initialisation or finalisation entry of a module, with R10 to R12 as they
/// are asked for.
pub fn enter_code(cpu: &mut Cpu, code: Code)
    ensures { cpu.new ≡ code_entered cpu.old code }
{
    enter(cpu, code.at);
    cpu.set_register_in(Mode::User, 10, code.r10);
    cpu.set_register_in(Mode::User, 11, code.r11);
    cpu.set_register_in(Mode::User, 12, code.r12);
}

// The core goes to an address in supervisor mode, and what is there returns to the gate.
fn enter(cpu: &mut Cpu, at: u32)
    ensures { cpu.new ≡ state_after_entry cpu.old at }
{
    cpu.set_mode(Mode::Supervisor);
    cpu.set_overflow(false);
    cpu.set_register_in(Mode::Supervisor, 14, cpu.psr().bits() + RETURN_GATE);
    cpu.set_pc(at);
}
