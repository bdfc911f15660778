//! Branches, and MOV to R15.

ghost use Rattle.std.specs.Prelude.{◌≡◌, ◌<◌, ◌≤◌, ◌+◌, ◌/◌, ◌%◌, ◌^◌, false, true};
ghost use Rattle.arm_core.specs.Condition.{Condition};
ghost use Rattle.arm_predecode.specs.Kinds.{Branches, MovesToPc};
ghost use Rattle.arm_run.specs.Standing.{LeadsTo};

use crate::standing::{POSITIONS, current, set_current};
use arm_core::condition::is_met;
use arm_core::{Condition, Cpu};
use arm_predecode::Op;

/// The position some words ahead.
#[inline(always)]
pub(crate) fn ahead(at: usize, words: u32) -> usize
    requires { at ≤ 2 ^ 24 }
    ensures value { result ≡ (at + words) % 2 ^ 24 }
    ensures within { result < 2 ^ 24 }
{
    (at + words as usize) % POSITIONS
}

/// B: where it goes.
#[tactic(auto, using(crate::proofs::Carried::branches_always))]
#[inline(always)]
pub(crate) fn target(cpu: &Cpu, at: usize, op: &Op) -> usize
    requires branch { Branches Condition.Always false op.now }
    requires at { at ≤ 2 ^ 24 }
    ensures leads { LeadsTo cpu.now at op.now.word cpu.now result }
    ensures within { result ≤ 2 ^ 24 }
{
    let _cpu = cpu;
    ahead(at, op.value)
}

/// B with a condition: where it goes.
#[tactic(auto, using(crate::proofs::Carried::branches_to, crate::proofs::Carried::passes_to))]
pub(crate) fn branch_if(cpu: &Cpu, condition: Condition, at: usize, op: &Op) -> usize
    requires branch { Branches condition false op.now }
    requires at { at < 2 ^ 24 }
    ensures leads { LeadsTo cpu.now at op.now.word cpu.now result }
    ensures within { result ≤ 2 ^ 24 }
{
    if is_met(condition, cpu.psr()) {
        ahead(at, op.value)
    } else {
        at + 1
    }
}

/// BL: where it goes.
#[tactic(auto, using(crate::proofs::Carried::links_to))]
pub(crate) fn link(cpu: &mut Cpu, at: usize, op: &Op) -> usize
    requires branch { Branches Condition.Always true op.now }
    requires at { at ≤ 2 ^ 24 }
    ensures leads { LeadsTo cpu.old at op.now.word cpu.new result }
    ensures within { result ≤ 2 ^ 24 }
{
    let next = ahead(at, 1) as u32 * 4;
    set_current(cpu, 14, cpu.psr().bits() + next);
    ahead(at, op.value)
}

/// The position of an address.
#[inline(always)]
fn position_of(address: u32) -> usize
    ensures { result ≡ address / 4 % 2 ^ 24 }
{
    (address / 4) as usize % POSITIONS
}

/// MOV of a register to R15: where it goes.
#[tactic(auto, using(crate::proofs::Jumped::moves_to))]
#[inline(always)]
pub(crate) fn move_to_pc(cpu: &Cpu, at: usize, op: &Op) -> usize
    requires { MovesToPc false op.now }
    ensures leads { LeadsTo cpu.now at op.now.word cpu.now result }
    ensures within { result ≤ 2 ^ 24 }
{
    let _at = at;
    position_of(current(cpu, op.rm))
}

/// MOV of a register to R15 with the status: where it goes.
#[tactic(auto, using(crate::proofs::Jumped::moves_with_status))]
#[inline(never)]
pub(crate) fn move_to_pc_s(cpu: &mut Cpu, at: usize, op: &Op) -> usize
    requires { MovesToPc true op.now }
    ensures leads { LeadsTo cpu.old at op.now.word cpu.new result }
    ensures within { result ≤ 2 ^ 24 }
{
    let _at = at;
    let value = current(cpu, op.rm);
    cpu.set_status(value);
    position_of(value)
}
