//! MUL and MLA by predecoded words.

ghost use Rattle.std.specs.Prelude.{◌≡◌, ◌<◌};
ghost use Rattle.arm_core.specs.State.{register_in};
ghost use Rattle.arm_predecode.specs.Kinds.{MultipliesPlainly};
ghost use Rattle.arm_run.specs.Operated.{product_of};
ghost use Rattle.arm_run.specs.Standing.{LeadsOn};

use crate::standing::{current, set_current};
use arm_core::Cpu;
use arm_predecode::Op;

/// MUL, or MLA with a third register added.
#[tactic(auto, using(crate::proofs::Multiplied::product_leads))]
pub(crate) fn multiply(cpu: &mut Cpu, adds: bool, op: &Op)
    requires { MultipliesPlainly adds op.now }
    ensures { LeadsOn cpu.old op.now.word cpu.new }
{
    let value = product(cpu, adds, op);
    set_current(cpu, op.rn, value);
}

#[tactic(auto, using(crate::proofs::Multiplied::then_added))]
#[inline(always)]
fn product(cpu: &Cpu, adds: bool, op: &Op) -> u32
    requires rm { op.now.rm < 15 }
    requires rs { op.now.rs < 15 }
    requires rd { op.now.rd < 15 }
    ensures { result ≡ product_of adds (register_in cpu.now.psr.mode cpu.now op.now.rm)
        (register_in cpu.now.psr.mode cpu.now op.now.rs)
        (register_in cpu.now.psr.mode cpu.now op.now.rd) }
{
    let product = current(cpu, op.rm).wrapping_mul(current(cpu, op.rs));
    if adds {
        product.wrapping_add(current(cpu, op.rd))
    } else {
        product
    }
}
