//! All words of memory that differ.

ghost use Rattle.std.specs.Prelude.{ℕ, ◌≡◌, ◌<◌, ◌%◌, ◌*◌, ◌+◌, ◌^◌, true, IfOk, OnOk};
ghost use Rattle.arm_step.specs.Bytes.{word_at};
ghost use Rattle.arm_step.specs.Memory.{byte_at};
ghost use Rattle.trace_effects.specs.shown_words.Replay.{AreShownBelow, words_after};

use arm_step::AddressMap;
use profile::memory_map::{ADDRESS_LIMIT, PAGE_SIZE};
use std::alloc::{AllocError, Global};

/// A word that is shown: its address, its old value and its new one.
#[derive(Clone, Copy, Default)]
pub struct ShownWord {
    pub at: u32,
    pub old: u32,
    pub new: u32,
}

/// The words of a memory that differ from those of another, by address. In both a word that isn't mapped
/// counts as 0. Whoever has the words before, and gives each of these its new value, has the words after.
///
/// # Errors
///
/// Memory ran out.
pub fn changed_words(
    alloc: Global,
    before: &AddressMap,
    after: &AddressMap,
) -> Result<Vec<ShownWord>, AllocError>
    ensures replays { IfOk result (λ words. (a : ℕ) → a % 4 ≡ 0
        → words_after words.items (word_at (byte_at before.now)) a ≡ word_at (byte_at after.now) a) }
{
    let mut changes = Vec::new(alloc);
    for page in 0..ADDRESS_LIMIT / PAGE_SIZE {
        add_page(&mut changes, before, after, page)?;
    }
    Ok(changes)
}

// The words of one page more.
fn add_page(
    changes: &mut Vec<ShownWord>,
    before: &AddressMap,
    after: &AddressMap,
    page: u32,
) -> Result<(), AllocError>
    requires page { page < 16384 }
    requires reported { AreShownBelow (word_at (byte_at before.now)) (word_at (byte_at after.now))
        (1024 * page) changes.old.items }
    ensures { OnOk result (AreShownBelow (word_at (byte_at before.now)) (word_at (byte_at after.now))
        (1024 * (page + 1)) changes.new.items) }
{
    if has_alike_page(before, after, PAGE_SIZE * page) {
        return Ok(());
    }
    for index in 0..PAGE_SIZE / 4 {
        add_word(changes, before, after, PAGE_SIZE / 4 * page + index)?;
    }
    Ok(())
}

// One word more, if it differs.
fn add_word(
    changes: &mut Vec<ShownWord>,
    before: &AddressMap,
    after: &AddressMap,
    number: u32,
) -> Result<(), AllocError>
    requires number { number < 2 ^ 24 }
    requires reported { AreShownBelow (word_at (byte_at before.now)) (word_at (byte_at after.now))
        number changes.old.items }
    ensures { OnOk result (AreShownBelow (word_at (byte_at before.now)) (word_at (byte_at after.now))
        (number + 1) changes.new.items) }
{
    let at = 4 * number;
    let old = word_in(before, at);
    let new = word_in(after, at);
    if old != new {
        changes.push(ShownWord { at, old, new })?;
    }
    Ok(())
}

// Whether no word of a page can be one that differs: it isn't mapped in both, or its bytes are as they
// were.
fn has_alike_page(before: &AddressMap, after: &AddressMap, page: u32) -> bool
    requires { page % 4096 ≡ 0 }
    ensures { result ≡ true → (j : ℕ) → j < 1024 → word_at (byte_at before.now) (page + 4 * j)
        ≡ word_at (byte_at after.now) (page + 4 * j) }
{
    let old = before.lend(page, PAGE_SIZE);
    let new = after.lend(page, PAGE_SIZE);
    match old {
        Some(old) => match new {
            Some(new) => old == new,
            None => false,
        },
        None => match new {
            Some(_) => false,
            None => true,
        },
    }
}

/// The word at an address, 0 where no memory is mapped.
pub fn word_in(memory: &AddressMap, at: u32) -> u32
    requires { at % 4 ≡ 0 }
    ensures { result ≡ word_at (byte_at memory.now) at }
{
    match memory.load_word(at) {
        Ok(word) => word,
        Err(_) => 0,
    }
}
