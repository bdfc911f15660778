//! LDM and STM of words in one page, as nearly all are: the page is looked up once for all of them.

ghost use Rattle.std.specs.Prelude.{◌≡◌, ◌<◌, ◌%◌, ◌*◌, ◌==◌, true, false, Some, length};
ghost use Rattle.arm_core.specs.Word.{bit_of};
ghost use Rattle.address_map.specs.Outcome.{Leaves};
ghost use Rattle.address_map.specs.Memory.{bytes_of, is_owned, layout, class_of, place};
ghost use Rattle.arm_core.specs.Effect.{status_operand};
ghost use Rattle.arm_core.specs.declared.psr.Mode.TheVariants.{User};
ghost use Rattle.arm_step.specs.PageWords.{are_in_page, words_in};
ghost use Rattle.arm_step.specs.Words.{with_words};
ghost use Rattle.arm_step.specs.StoredBase.{changed_base, value_by};
ghost use Rattle.arm_core.specs.Listed.{registers_of_list};
ghost use Rattle.arm_step.specs.Blocks.{transferred_count, block_start, block_base, bank_of, with_loaded, with_block_status, block_loaded, stores_new_base, block_values, block_stored};

use crate::block_fields::{bank_of, loads_status, stores_new_base, write_block_base};
use crate::page_words::{free_place, lend_words, word_in};
use address_map::AddressMap;
use arm_core::registers::{size_of, split_lowest};
use arm_core::{Cpu, Mode};
use arm_decode::{BlockTransfer, Fault, Register, RegisterList};

/// LDM of words in one page.
#[inline(always)]
pub(crate) fn load_from_page(
    cpu: &mut Cpu,
    memory: &AddressMap,
    block: &BlockTransfer,
    first: u32,
    base: u32,
) -> Result<(), Fault>
    requires first { first ≡ block_start cpu.old block.now }
    requires base { base ≡ block_base cpu.old block.now }
    requires page { are_in_page first (transferred_count block.now) ≡ true }
    ensures { let loaded = block_loaded cpu.old (bytes_of memory.now) block.now in
        Leaves (cpu.old, bytes_of memory.now) loaded result (cpu.new, bytes_of memory.now) }
{
    let bytes = lend_words(memory, first, size_of(block.list))?;
    let bank = bank_of(cpu, block);
    cpu.advance();
    write_block_base(cpu, block, base);
    place_bytes(cpu, bank, block.list, bytes);
    set_status_of_bytes(cpu, block, bytes);
    Ok(())
}

/// Places the words of some bytes in the registers of a list.
#[inline(always)]
fn place_bytes(cpu: &mut Cpu, bank: Mode, list: RegisterList, bytes: &[u8])
    requires { length bytes.now ≡ 4 * length (registers_of_list list) }
    ensures { cpu.new ≡ with_loaded bank cpu.old (registers_of_list list)
        (words_in bytes.now 0 (length (registers_of_list list))) }
{
    match bank {
        // Where the bank is known, so is the place of each register.
        Mode::User if !list.contains_pc() => place_low(cpu, list, bytes),
        Mode::User => place_each(cpu, Mode::User, list, bytes),
        _ => place_each(cpu, bank, list, bytes),
    }
}

/// The same, one by one.
#[tactic(auto, using(crate::proofs::PageBlocks::placing))]
#[inline(always)]
fn place_each(cpu: &mut Cpu, bank: Mode, list: RegisterList, bytes: &[u8])
    requires { length bytes.now ≡ 4 * length (registers_of_list list) }
    ensures { cpu.new ≡ with_loaded bank cpu.old (registers_of_list list)
        (words_in bytes.now 0 (length (registers_of_list list))) }
{
    let mut at = 0;
    let mut rest = u64::from(list.bits());
    while rest != 0 {
        let (register, others) = split_lowest(rest);
        cpu.set_result_in(bank, register, word_in(bytes, at));
        at += 4;
        rest = others;
    }
}

/// The same in user mode for a list without R15, of which no register is asked whether it is that.
#[tactic(auto, using(crate::proofs::PageBlocks::placing_low))]
#[inline(always)]
fn place_low(cpu: &mut Cpu, list: RegisterList, bytes: &[u8])
    requires size { length bytes.now ≡ 4 * length (registers_of_list list) }
    requires low { bit_of list 15 ≡ false }
    ensures { cpu.new ≡ with_loaded User cpu.old (registers_of_list list)
        (words_in bytes.now 0 (length (registers_of_list list))) }
{
    let mut at = 0;
    let mut rest = u64::from(list.bits());
    while rest != 0 {
        let (register, others) = split_lowest(rest);
        cpu.set_register_in(Mode::User, register.number(), word_in(bytes, at));
        at += 4;
        rest = others;
    }
}

/// Loads the status from the last of some words, where the block transfer does that.
#[tactic(auto, using(crate::proofs::PageBlocks::last_word))]
#[inline(always)]
fn set_status_of_bytes(cpu: &mut Cpu, block: &BlockTransfer, bytes: &[u8])
    requires size { length bytes.now ≡ 4 * transferred_count block.now }
    requires some { 0 < transferred_count block.now }
    ensures { cpu.new ≡ with_block_status cpu.old block.now
        (words_in bytes.now 0 (transferred_count block.now)) }
{
    if loads_status(block) {
        cpu.set_status(word_in(bytes, bytes.len() - 4));
    }
}

/// STM of words in one page.
#[inline(always)]
pub(crate) fn store_to_page(
    cpu: &mut Cpu,
    memory: &mut AddressMap,
    block: &BlockTransfer,
    first: u32,
    base: u32,
) -> Result<(), Fault>
    requires first { first ≡ block_start cpu.old block.now }
    requires aligned { first % 4 ≡ 0 }
    requires base { base ≡ block_base cpu.old block.now }
    requires page { are_in_page first (transferred_count block.now) ≡ true }
    ensures state { let stored = block_stored (is_owned memory.old) cpu.old (bytes_of memory.old) block.now in
        Leaves (cpu.old, bytes_of memory.old) stored result (cpu.new, bytes_of memory.new) }
    ensures layout { layout memory.new ≡ layout memory.old }
    ensures marks { class_of memory.new ≡ class_of memory.old }
{
    let at = free_place(memory, first, size_of(block.list))?;
    put_registers(cpu, memory, block, base, first, at);
    cpu.advance();
    write_block_base(cpu, block, base);
    Ok(())
}

/// What a block transfer stores of a register. `changed` is what it stores of its base, where
/// that is not the base as it was.
#[inline(always)]
fn stored_value(
    cpu: &Cpu,
    block: &BlockTransfer,
    bank: Mode,
    changed: Option<u32>,
    register: Register,
) -> u32
    ensures { result ≡ value_by changed (register == block.now.rn) (status_operand bank cpu.now register 3) }
{
    match changed {
        Some(base) if register.number() == block.rn.number() => base,
        _ => cpu.status_operand(bank, register, 3),
    }
}

/// Stores the registers of a block transfer to words of one page, the first of which lies at this
/// place of the store.
#[inline(always)]
fn put_registers(
    cpu: &Cpu,
    memory: &mut AddressMap,
    block: &BlockTransfer,
    base: u32,
    first: u32,
    at: usize,
)
    requires base { base ≡ block_base cpu.now block.now }
    requires aligned { first % 4 ≡ 0 }
    requires page { are_in_page first (transferred_count block.now) ≡ true }
    requires place { place memory.old first ≡ Some at }
    ensures bytes { bytes_of memory.new ≡
        with_words (bytes_of memory.old) first (block_values cpu.now block.now) }
    ensures layout { layout memory.new ≡ layout memory.old }
    ensures marks { class_of memory.new ≡ class_of memory.old }
{
    let changed = stores_new_base(block).then_some(base);
    // Where these are known, so is the place of each register.
    match (bank_of(cpu, block), changed) {
        (Mode::User, None) if !block.list.contains_pc() => put_low(cpu, memory, block, first, at),
        (Mode::User, None) => put_each(cpu, memory, block, Mode::User, None, first, at),
        (Mode::User, _) => put_each(cpu, memory, block, Mode::User, changed, first, at),
        (bank, _) => put_each(cpu, memory, block, bank, changed, first, at),
    }
}

/// The same, one by one.
#[tactic(auto, using(arm_core::proofs::Lowest::length_next))]
#[inline(always)]
fn put_each(
    cpu: &Cpu,
    memory: &mut AddressMap,
    block: &BlockTransfer,
    bank: Mode,
    changed: Option<u32>,
    first: u32,
    at: usize,
)
    requires bank { bank ≡ bank_of cpu.now block.now }
    requires changed { changed ≡ changed_base cpu.now block.now }
    requires aligned { first % 4 ≡ 0 }
    requires page { are_in_page first (transferred_count block.now) ≡ true }
    requires place { place memory.old first ≡ Some at }
    ensures bytes { bytes_of memory.new ≡
        with_words (bytes_of memory.old) first (block_values cpu.now block.now) }
    ensures layout { layout memory.new ≡ layout memory.old }
    ensures marks { class_of memory.new ≡ class_of memory.old }
{
    let mut offset = 0;
    let mut rest = u64::from(block.list.bits());
    while rest != 0 {
        let (register, others) = split_lowest(rest);
        let value = stored_value(cpu, block, bank, changed, register);
        memory.put_word_at(first + offset as u32, at + offset, value);
        offset += 4;
        rest = others;
    }
}

/// The same in user mode for a list without R15, where the base is stored as it was.
#[tactic(auto, using(crate::proofs::PageBlocks::putting_low))]
#[inline(always)]
fn put_low(cpu: &Cpu, memory: &mut AddressMap, block: &BlockTransfer, first: u32, at: usize)
    requires bank { bank_of cpu.now block.now ≡ User }
    requires unchanged { stores_new_base block.now ≡ false }
    requires low { bit_of block.now.list 15 ≡ false }
    requires aligned { first % 4 ≡ 0 }
    requires page { are_in_page first (transferred_count block.now) ≡ true }
    requires place { place memory.old first ≡ Some at }
    ensures bytes { bytes_of memory.new ≡
        with_words (bytes_of memory.old) first (block_values cpu.now block.now) }
    ensures layout { layout memory.new ≡ layout memory.old }
    ensures marks { class_of memory.new ≡ class_of memory.old }
{
    let mut offset = 0;
    let mut rest = u64::from(block.list.bits());
    while rest != 0 {
        let (register, others) = split_lowest(rest);
        let value = cpu.register_in(Mode::User, register.number());
        memory.put_word_at(first + offset as u32, at + offset, value);
        offset += 4;
        rest = others;
    }
}
