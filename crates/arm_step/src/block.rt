//! LDM and STM.

ghost use Rattle.std.specs.Prelude.{◌≡◌, ◌<◌, ◌≤◌, ◌^◌, ◌%◌, true, length};
ghost use Rattle.arrayvec.specs.ArrayVec.{array_vec_len};
ghost use Rattle.address_map.specs.Outcome.{Leaves};
ghost use Rattle.address_map.specs.Memory.{bytes_of, is_owned, layout, class_of};
ghost use Rattle.arm_decode.specs.Fields.{block_transfer_in};
ghost use Rattle.arm_step.specs.PageWords.{are_in_page};
ghost use Rattle.arm_core.specs.Listed.{registers_of_list};
ghost use Rattle.arm_step.specs.Blocks.{lowest, stepped_base, transferred_count, block_start, block_base, with_loaded, with_block_status, block_loaded, block_values, block_stored, result_of_block_transfer};

use crate::block_fields::{bank_of, loads_status, stores_new_base, write_block_base};
use crate::page_block::{load_from_page, store_to_page};
use crate::page_words::are_in_page;
use crate::words::{MOST_WORDS, load_words, store_words};
use address_map::AddressMap;
use arm_core::registers::size_of;
use arm_core::{Cpu, Mode};
use arm_decode::{BlockMode, BlockTransfer, Fault, Register, RegisterList};
use arrayvec::ArrayVec;

/// The lowest address of a block of some words, with its base, and the base that is written back.
#[inline(always)]
fn reach(mode: BlockMode, base: u32, count: u32) -> (u32, u32)
    requires { count ≤ 16 }
    ensures lowest { result.0 ≡ lowest mode base count }
    ensures base { result.1 ≡ stepped_base mode base count }
{
    let goes_up = matches!(mode, BlockMode::IncrementAfter | BlockMode::IncrementBefore);
    let begins_above = matches!(mode, BlockMode::IncrementBefore | BlockMode::DecrementAfter);
    let end = if goes_up {
        base.wrapping_add(4 * count)
    } else {
        base.wrapping_sub(4 * count)
    };
    let start = if goes_up { base } else { end };
    if begins_above {
        (start.wrapping_add(4), end)
    } else {
        (start, end)
    }
}

/// Places loaded words in the registers of a list, one by one.
#[tactic(auto, using(crate::proofs::Placing::placing))]
fn place_words(cpu: &mut Cpu, bank: Mode, list: RegisterList, words: &[u32])
    requires { length words.now ≡ length (registers_of_list list) }
    ensures { cpu.new ≡ with_loaded bank cpu.old (registers_of_list list) words.now }
{
    let mut index = 0;
    for number in 0..16u8 {
        let register = Register::new(number);
        if list.contains(register) {
            cpu.set_result_in(bank, register, words[index]);
            index += 1;
        }
    }
}

/// Loads the status from the last word, where the block transfer does that.
fn set_block_status(cpu: &mut Cpu, block: &BlockTransfer, words: &[u32])
    ensures { cpu.new ≡ with_block_status cpu.old block.now words.now }
{
    if !loads_status(block) {
        return;
    }
    if let Some(word) = words.last() {
        cpu.set_status(*word);
    }
}

/// What a block transfer stores of its registers, with the base that it writes back.
#[tactic(auto, using(arm_core::proofs::Listing::valuing))]
fn block_values(cpu: &Cpu, block: &BlockTransfer, base: u32) -> ArrayVec<u32, MOST_WORDS>
    requires { base ≡ block_base cpu.now block.now }
    ensures { result.items ≡ block_values cpu.now block.now }
{
    let bank = bank_of(cpu, block);
    let stores_new_base = stores_new_base(block);
    let mut values = ArrayVec::new();
    for number in 0..16u8 {
        let register = Register::new(number);
        if block.list.contains(register) {
            if stores_new_base && number as u32 == block.rn.number() {
                values.push(base);
            } else {
                values.push(cpu.status_operand(bank, register, 3));
            }
        }
    }
    values
}

/// Where the words of a block transfer begin, and the base that it writes back.
#[inline(always)]
fn block_reach(cpu: &Cpu, block: &BlockTransfer, count: u32) -> (u32, u32)
    requires size { count ≡ transferred_count block.now }
    requires few { count ≤ 16 }
    ensures start { result.0 ≡ block_start cpu.now block.now }
    ensures aligned { result.0 % 4 ≡ 0 }
    ensures base { result.1 ≡ block_base cpu.now block.now }
{
    let (lowest, base) = reach(block.mode, cpu.plain_operand(block.rn, 2), count);
    (lowest - lowest % 4, base)
}

/// LDM of words that may lie in two pages: the base is written first, so a loaded base wins.
fn load_from_pages(
    cpu: &mut Cpu,
    memory: &AddressMap,
    block: &BlockTransfer,
    first: u32,
    base: u32,
) -> Result<(), Fault>
    requires first { first ≡ block_start cpu.old block.now }
    requires aligned { first % 4 ≡ 0 }
    requires base { base ≡ block_base cpu.old block.now }
    ensures { let loaded = block_loaded cpu.old (bytes_of memory.now) block.now in
        Leaves (cpu.old, bytes_of memory.now) loaded result (cpu.new, bytes_of memory.now) }
{
    let words = load_words(memory, first, size_of(block.list))?;
    let bank = bank_of(cpu, block);
    cpu.advance();
    write_block_base(cpu, block, base);
    place_words(cpu, bank, block.list, words.as_slice());
    set_block_status(cpu, block, words.as_slice());
    Ok(())
}

/// STM of words that may lie in two pages: all words are tested before the first is stored.
fn store_to_pages(
    cpu: &mut Cpu,
    memory: &mut AddressMap,
    block: &BlockTransfer,
    first: u32,
    base: u32,
) -> Result<(), Fault>
    requires first { first ≡ block_start cpu.old block.now }
    requires aligned { first % 4 ≡ 0 }
    requires base { base ≡ block_base cpu.old block.now }
    ensures state { let stored = block_stored (is_owned memory.old) cpu.old (bytes_of memory.old) block.now in
        Leaves (cpu.old, bytes_of memory.old) stored result (cpu.new, bytes_of memory.new) }
    ensures layout { layout memory.new ≡ layout memory.old }
    ensures marks { class_of memory.new ≡ class_of memory.old }
{
    let values = block_values(cpu, block, base);
    store_words(memory, first, values.as_slice())?;
    cpu.advance();
    write_block_base(cpu, block, base);
    Ok(())
}

/// LDM and STM of words that may lie in two pages, by the word. Its fields are read once more
/// here, so that where all lies in one page, as mostly, they need not lie in memory.
#[tactic(auto, unfolding(crate::specs::Blocks::result_of_block_transfer))]
#[inline(never)]
fn transfer_in_pages(
    cpu: &mut Cpu,
    memory: &mut AddressMap,
    word: u32,
    first: u32,
    base: u32,
) -> Result<(), Fault>
    requires first { first ≡ block_start cpu.old (block_transfer_in word) }
    requires aligned { first % 4 ≡ 0 }
    requires base { base ≡ block_base cpu.old (block_transfer_in word) }
    ensures state { let moved = result_of_block_transfer (is_owned memory.old) cpu.old (bytes_of memory.old)
        (block_transfer_in word) in
        Leaves (cpu.old, bytes_of memory.old) moved result (cpu.new, bytes_of memory.new) }
    ensures layout { layout memory.new ≡ layout memory.old }
    ensures marks { class_of memory.new ≡ class_of memory.old }
{
    let block = BlockTransfer::in_word(word);
    if block.loads {
        load_from_pages(cpu, memory, &block, first, base)
    } else {
        store_to_pages(cpu, memory, &block, first, base)
    }
}

/// The same, with the place in memory for the answer of that call, which so is made only here.
#[inline(always)]
fn transfer_beyond_page(
    cpu: &mut Cpu,
    memory: &mut AddressMap,
    word: u32,
    first: u32,
    base: u32,
) -> Result<(), Fault>
    requires first { first ≡ block_start cpu.old (block_transfer_in word) }
    requires aligned { first % 4 ≡ 0 }
    requires base { base ≡ block_base cpu.old (block_transfer_in word) }
    ensures state { let moved = result_of_block_transfer (is_owned memory.old) cpu.old (bytes_of memory.old)
        (block_transfer_in word) in
        Leaves (cpu.old, bytes_of memory.old) moved result (cpu.new, bytes_of memory.new) }
    ensures layout { layout memory.new ≡ layout memory.old }
    ensures marks { class_of memory.new ≡ class_of memory.old }
{
    transfer_in_pages(cpu, memory, word, first, base)
}

/// LDM and STM, by a word and its fields.
///
/// # Errors
///
/// `AddressException`, `DataUnmapped`, and for a store `OwnedWord`, in this order and each over
/// all words. Core and memory are then as before.
#[tactic(auto, unfolding(crate::specs::Blocks::result_of_block_transfer))]
#[inline(always)]
pub(crate) fn transfer_block(
    cpu: &mut Cpu,
    memory: &mut AddressMap,
    word: u32,
    block: &BlockTransfer,
) -> Result<(), Fault>
    requires { block.now ≡ block_transfer_in word }
    ensures state { let moved = result_of_block_transfer (is_owned memory.old) cpu.old (bytes_of memory.old)
        block.now in
        Leaves (cpu.old, bytes_of memory.old) moved result (cpu.new, bytes_of memory.new) }
    ensures layout { layout memory.new ≡ layout memory.old }
    ensures marks { class_of memory.new ≡ class_of memory.old }
{
    let count = size_of(block.list);
    let (first, base) = block_reach(cpu, block, count);
    if !are_in_page(first, count) {
        transfer_beyond_page(cpu, memory, word, first, base)
    } else if block.loads {
        load_from_page(cpu, memory, block, first, base)
    } else {
        store_to_page(cpu, memory, block, first, base)
    }
}
