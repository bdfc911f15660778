//! What the fields of LDM and STM ask for: the bank, the status, the base.

ghost use Rattle.std.specs.Prelude.{◌≡◌};
ghost use Rattle.arm_step.specs.Blocks.{loads_status, bank_of, with_block_base, stores_new_base};

use arm_core::{Cpu, Mode};
use arm_decode::BlockTransfer;

/// Whether a block transfer loads the status with R15.
#[inline(always)]
pub(crate) fn loads_status(block: &BlockTransfer) -> bool
    ensures { result ≡ loads_status block.now }
{
    block.psr_or_user && (block.loads && block.list.contains_pc())
}

/// Whether a store finds the base already written back: where a lower register is listed.
#[inline(always)]
pub(crate) fn stores_new_base(block: &BlockTransfer) -> bool
    ensures { result ≡ stores_new_base block.now }
{
    block.writes_back && block.list.bits() % (1 << block.rn.number()) != 0
}

/// The bank that a block transfer means: with S, where it does not load the status, that of
/// user mode.
#[inline(always)]
pub(crate) fn bank_of(cpu: &Cpu, block: &BlockTransfer) -> Mode
    ensures { result ≡ bank_of cpu.now block.now }
{
    if block.psr_or_user && !loads_status(block) {
        Mode::User
    } else {
        cpu.psr().mode
    }
}

/// Writes the base of a block transfer back where it does that.
#[inline(always)]
pub(crate) fn write_block_base(cpu: &mut Cpu, block: &BlockTransfer, base: u32)
    ensures { cpu.new ≡ with_block_base cpu.old block.now base }
{
    if block.writes_back {
        cpu.set_result(block.rn, base);
    }
}
