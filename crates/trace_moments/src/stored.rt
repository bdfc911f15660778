//! The words that an instruction loads and stores.

ghost use Rattle.std.specs.Prelude.{◌≡◌, ◌≤◌, map, IfOk, IfSome, MatchOption};
ghost use Rattle.address_map.specs.Bytes.{word_at};
ghost use Rattle.address_map.specs.Memory.{byte_at};
ghost use Rattle.trace_effects.specs.Loaded.{loaded_words};
ghost use Rattle.trace_moments.specs.Stored.{AreListed, renewed};

use address_map::AddressMap;
use arm_core::Cpu;
use std::alloc::{AllocError, Global};
use trace_effects::shown_words::{ShownWord, word_in};
use trace_effects::{Cause, StoredWords};

/// The words that the instruction at a core's program counter loads, if it loads any, of which LDRB
/// loads one byte.
pub fn loaded_words(cause: Cause, cpu: &Cpu) -> Option<StoredWords>
    ensures value { MatchOption result ((loaded_words cause cpu.now).count ≡ 0)
        (λ words. words ≡ loaded_words cause cpu.now) }
    ensures few { IfSome result (λ words. words.count ≤ 16) }
{
    let words = trace_effects::loaded_words(cause, cpu);
    if words.count == 0 {
        return None;
    }
    Some(words)
}

/// So many words of memory, by their addresses; one that isn't mapped counts as 0.
///
/// # Errors
///
/// Memory ran out.
pub fn words_at(
    alloc: Global,
    memory: &AddressMap,
    words: StoredWords,
) -> Result<Vec<ShownWord>, AllocError>
    requires { words.count ≤ 16 }
    ensures { IfOk result (λ all. AreListed words all.items) }
{
    let mut all = Vec::new(alloc);
    for index in 0..words.count {
        let at = (words.at - words.at % 4).wrapping_add(4 * index);
        let word = word_in(memory, at);
        all.push(ShownWord {
            at,
            old: word,
            new: word,
        })?;
    }
    Ok(all)
}

/// Words as they were, with what stands there now.
pub fn stored_changes(
    alloc: Global,
    olds: &[ShownWord],
    memory: &AddressMap,
) -> Result<Vec<ShownWord>, AllocError>
    ensures { IfOk result
        (λ changes. changes.items ≡ map (renewed (word_at (byte_at memory.now))) olds.now) }
{
    let mut changes = Vec::new(alloc);
    for old in olds {
        let new = word_in(memory, old.at - old.at % 4);
        changes.push(ShownWord { new, ..*old })?;
    }
    Ok(changes)
}
