//! The words of memory that an instruction loads.

ghost use Rattle.std.specs.Prelude.{◌≡◌, ◌≤◌};
ghost use Rattle.trace_effects.specs.Loaded.{loaded_words, loads_of_action, register_of_action};

use crate::cause::Cause;
use crate::stored::{StoredWords, block_words, no_words, transfer_words};
use arm_core::Cpu;
use arm_decode::{Action, decode};

/// The words that the instruction at a core's program counter loads, of which LDRB loads one byte;
/// where it is refused too.
pub fn loaded_words(cause: Cause, cpu: &Cpu) -> StoredWords
    ensures value { result ≡ loaded_words cause cpu.now }
    ensures few { result.count ≤ 16 }
{
    match cause {
        Cause::Word(word) => match decode(word) {
            Ok(instr) => loads_of_action(cpu, instr.action()),
            Err(_) => no_words(),
        },
        _ => no_words(),
    }
}

pub(crate) fn loads_of_action(cpu: &Cpu, action: Action) -> StoredWords
    ensures value { result ≡ loads_of_action cpu.now action }
    ensures few { result.count ≤ 16 }
{
    match action {
        Action::Transfer(transfer) if transfer.loads => transfer_words(cpu, &transfer),
        Action::BlockTransfer(block) if block.loads => block_words(cpu, &block),
        _ => no_words(),
    }
}

/// The register that an LDR loads.
pub(crate) fn register_of_action(action: Action) -> Option<u32>
    ensures { result ≡ register_of_action action }
{
    match action {
        Action::Transfer(transfer) if transfer.loads => Some(transfer.rd.number()),
        _ => None,
    }
}
