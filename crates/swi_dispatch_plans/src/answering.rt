//! What store calls answer, put in registers.

ghost use Rattle.std.specs.Prelude.{◌≤◌, Ok};
ghost use Rattle.profile.specs.Outcome.{Leaves, bind};
ghost use Rattle.swi_dispatch_answers.specs.Refusals.{or_error};
ghost use Rattle.swi_dispatch_answers.specs.State.{with_register};

use profile::ErrorNumber;
use swi_dispatch_answers::{Cpu, Refusal};

/// A call that answers nothing.
pub(crate) fn done(answer: Result<(), ErrorNumber>) -> Result<(), Refusal>
    ensures { Leaves tt (or_error answer) result tt }
{
    Ok(answer?)
}

/// A call whose answer goes to a register.
pub(crate) fn in_register(
    cpu: &mut Cpu,
    number: u32,
    answer: Result<u32, ErrorNumber>,
) -> Result<(), Refusal>
    requires { number ≤ 14 }
    ensures { Leaves cpu.old (bind (or_error answer) (λ value. Ok (with_register cpu.old number value)))
        result cpu.new }
{
    let value = answer?;
    cpu.set_register(number, value);
    Ok(())
}

/// A call whose two answers go to R2 and R3.
pub(crate) fn in_two_registers(
    cpu: &mut Cpu,
    answer: Result<(u32, u32), ErrorNumber>,
) -> Result<(), Refusal>
    ensures { Leaves cpu.old (bind (or_error answer) (λ two. Ok
        (with_register (with_register cpu.old 2 two.0) 3 two.1))) result cpu.new }
{
    let (one, other) = answer?;
    cpu.set_register(2, one);
    cpu.set_register(3, other);
    Ok(())
}
