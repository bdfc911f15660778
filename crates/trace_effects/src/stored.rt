//! The words of memory that an instruction stores to.

ghost use Rattle.std.specs.Prelude.{◌≡◌, ◌≤◌};
ghost use Rattle.arm_step.specs.Blocks.{block_start, lowest};
ghost use Rattle.arm_step.specs.Transfers.{moved_base, offset_amount, transfer_address};
ghost use Rattle.trace_effects.specs.Stored.{block_words, no_words, stored_words, transfer_words, words_of_action};

use crate::cause::Cause;
use arm_core::Cpu;
use arm_core::registers::size_of;
use arm_decode::{
    Action, Address, BlockMode, BlockTransfer, Direction, Indexing, Offset, Transfer, decode,
};

/// So many words of memory, the first of them at an address.
#[derive(Clone, Copy)]
pub struct StoredWords {
    pub at: u32,
    pub count: u32,
}

/// The words that the instruction at a core's program counter stores to, of which STRB stores to one
/// byte; where it is refused too.
pub fn stored_words(cause: Cause, cpu: &Cpu) -> StoredWords
    ensures value { result ≡ stored_words cause cpu.now }
    ensures few { result.count ≤ 16 }
{
    match cause {
        Cause::Word(word) => match decode(word) {
            Ok(instr) => words_of_action(cpu, instr.action()),
            Err(_) => no_words(),
        },
        _ => no_words(),
    }
}

pub(crate) fn no_words() -> StoredWords
    ensures { result ≡ no_words }
{
    StoredWords { at: 0, count: 0 }
}

pub(crate) fn words_of_action(cpu: &Cpu, action: Action) -> StoredWords
    ensures value { result ≡ words_of_action cpu.now action }
    ensures few { result.count ≤ 16 }
{
    match action {
        Action::Transfer(transfer) if !transfer.loads => transfer_words(cpu, &transfer),
        Action::BlockTransfer(block) if !block.loads => block_words(cpu, &block),
        _ => no_words(),
    }
}

/// The word that a transfer moves, or of which it moves a byte.
pub(crate) fn transfer_words(cpu: &Cpu, transfer: &Transfer) -> StoredWords
    ensures value { result ≡ transfer_words cpu.now transfer.now }
    ensures few { result.count ≤ 16 }
{
    let at = transfer_address(cpu, &transfer.address);
    StoredWords {
        at: at - at % 4,
        count: 1,
    }
}

/// The words that a block transfer moves.
pub(crate) fn block_words(cpu: &Cpu, block: &BlockTransfer) -> StoredWords
    ensures value { result ≡ block_words cpu.now block.now }
    ensures few { result.count ≤ 16 }
{
    let count = size_of(block.list);
    let at = lowest(block.mode, cpu.plain_operand(block.rn, 2), count);
    StoredWords {
        at: at - at % 4,
        count,
    }
}

fn lowest(mode: BlockMode, base: u32, count: u32) -> u32
    requires { count ≤ 16 }
    ensures { result ≡ lowest mode base count }
{
    match mode {
        BlockMode::IncrementAfter => base,
        BlockMode::IncrementBefore => base.wrapping_add(4),
        BlockMode::DecrementAfter => base.wrapping_sub(4 * count).wrapping_add(4),
        BlockMode::DecrementBefore => base.wrapping_sub(4 * count),
    }
}

fn transfer_address(cpu: &Cpu, address: &Address) -> u32
    ensures { result ≡ transfer_address cpu.now address.now }
{
    match address.indexing {
        Indexing::Pre { .. } => moved_base(cpu, address),
        Indexing::Post { .. } => cpu.plain_operand(address.rn, 2),
    }
}

fn moved_base(cpu: &Cpu, address: &Address) -> u32
    ensures { result ≡ moved_base cpu.now address.now }
{
    let base = cpu.plain_operand(address.rn, 2);
    let offset = offset_of(cpu, &address.offset);
    match address.direction {
        Direction::Up => base.wrapping_add(offset),
        Direction::Down => base.wrapping_sub(offset),
    }
}

fn offset_of(cpu: &Cpu, offset: &Offset) -> u32
    ensures { result ≡ offset_amount cpu.now offset.now }
{
    match offset {
        Offset::Immediate(number) => number.number(),
        Offset::Shifted(shifted) => cpu.shifted_register(*shifted).value,
    }
}
