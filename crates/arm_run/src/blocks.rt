//! LDM and STM by predecoded words, of words that lie in one page.

ghost use Rattle.std.specs.Prelude.{◌≡◌, ◌<◌, ◌≤◌, ◌+◌, ◌*◌, ◌%◌, ◌^◌, ℕ, ⊤, Ok, Some, None, IfSome, MatchOption, true, false, length, map, slice_index};
ghost use Rattle.arm_step.specs.Bytes.{word_at};
ghost use Rattle.arm_step.specs.Memory.{bytes_of, is_owned, layout, class_of, place};
ghost use Rattle.arm_core.specs.Listed.{registers_of_list};
ghost use Rattle.arm_core.specs.State.{register_in};
ghost use Rattle.arm_predecode.specs.Kinds.{MovesBlock};
ghost use Rattle.arm_run.specs.Blocked.{block_base_after, first_word, IsBlockLoaded, IsBlockStored};
ghost use Rattle.arm_run.specs.Standing.{core_at, Acts, IsFetched};
ghost use Rattle.arm_step.specs.Blocks.{with_loaded};
ghost use Rattle.arm_step.specs.PageWords.{are_in_page, words_in};
ghost use Rattle.arm_step.specs.Words.{with_words, words_loaded, words_store_fault};

use crate::standing::{current, position, set_current, slowly, stand};
use arm_core::Cpu;
use arm_core::registers::split_lowest;
use arm_predecode::Op;
use arm_step::{AddressMap, PAGE_SIZE};
use byteorder::{ByteOrder, LittleEndian};

/// Where the words of a block begin, and the base after it.
#[inline(always)]
fn reach(cpu: &Cpu, is_up: bool, op: &Op) -> (u32, u32)
    requires { op.now.rn < 15 }
    ensures small { register_in cpu.now.psr.mode cpu.now op.now.rn < 2 ^ 32 }
    ensures first { result.0 ≡ first_word is_up
        (register_in cpu.now.psr.mode cpu.now op.now.rn) op.now.rs op.now.rm }
    ensures aligned { result.0 % 4 ≡ 0 }
    ensures base { result.1 ≡ block_base_after is_up
        (register_in cpu.now.psr.mode cpu.now op.now.rn) op.now.rs }
{
    let base = current(cpu, op.rn);
    let size = u32::from(op.rs);
    let end = if is_up {
        base.wrapping_add(size)
    } else {
        base.wrapping_sub(size)
    };
    let lower = if is_up { base } else { end };
    let first = lower.wrapping_add(u32::from(op.rm));
    (first - first % 4, end)
}

/// How many words a block has.
#[tactic(auto, using(crate::proofs::Blocked::counted, crate::proofs::Blocked::few))]
#[inline(always)]
fn count_of(loads: bool, is_up: bool, writes_back: bool, has_pc: bool, op: &Op) -> u32
    requires { MovesBlock loads is_up writes_back has_pc op.now }
    ensures count { result ≡ length (registers_of_list op.now.value) }
    ensures few { result ≤ 16 }
{
    let _known = (loads, is_up, writes_back, has_pc);
    u32::from(op.rs) / 4
}

/// Whether some words lie in one page, and are at least one.
#[inline(always)]
fn are_in_page(first: u32, count: u32) -> bool
    requires { count ≤ 16 }
    ensures { result ≡ are_in_page first count }
{
    count > 0 && first % PAGE_SIZE + 4 * count <= PAGE_SIZE
}

/// The word at a place of some bytes.
#[inline(always)]
fn word_in(bytes: &[u8], at: usize) -> u32
    requires { at + 4 ≤ length bytes.now }
    ensures { result ≡ word_at (slice_index bytes.now) at }
{
    LittleEndian::read_u32(&bytes[at..at + 4])
}

/// The bytes of some words, if these lie in one page that is mapped.
#[tactic(auto, using(arm_step::proofs::PageWords::loading, arm_step::proofs::PageWords::page_within))]
#[inline(always)]
fn lend_words(memory: &AddressMap, first: u32, count: u32) -> Option<&[u8]>
    requires { count ≤ 16 }
    ensures { MatchOption result ⊤ (λ bytes.
        (words_loaded (bytes_of memory.now) first count ≡ Ok (words_in bytes.now 0 count)) ×
        (length bytes.now ≡ 4 * count)) }
{
    if !are_in_page(first, count) {
        return None;
    }
    match memory.lend(first, 4 * count) {
        Some(bytes) => Some(bytes),
        None => None,
    }
}

/// Where the first of some words lies in the store, if they lie in one page and a guest may store
/// to them all.
#[tactic(auto, using(arm_step::proofs::PageWords::storing))]
#[inline(always)]
fn free_place(memory: &AddressMap, first: u32, count: u32) -> Option<usize>
    requires aligned { first % 4 ≡ 0 }
    requires few { count ≤ 16 }
    ensures free { MatchOption result ⊤ (λ at.
        words_store_fault (is_owned memory.now) (bytes_of memory.now) first count ≡ None) }
    ensures page { MatchOption result ⊤ (λ at. are_in_page first count ≡ true) }
    ensures place { MatchOption result ⊤ (λ at. place memory.now first ≡ Some at) }
{
    if !are_in_page(first, count) {
        return None;
    }
    let Some(at) = memory.translate(first) else {
        return None;
    };
    if memory.owns_any(first, at, count) {
        return None;
    }
    Some(at)
}

/// Places the words of some bytes in the registers of a list without R15.
#[tactic(auto, using(arm_step::proofs::PageBlocks::placing_low))]
#[inline(always)]
fn place_words(cpu: &mut Cpu, list: u32, bytes: &[u8])
    requires size { length bytes.now ≡ 4 * length (registers_of_list list) }
    requires low { list < 2 ^ 15 }
    ensures { (p : ℕ) → core_at cpu.new p ≡ with_loaded cpu.old.psr.mode (core_at cpu.old p)
        (registers_of_list list) (words_in bytes.now 0 (length (registers_of_list list))) }
{
    let mut at = 0;
    let mut rest = u64::from(list);
    while rest != 0 {
        let (register, others) = split_lowest(rest);
        cpu.set_current(register.number() as u8, word_in(bytes, at));
        at += 4;
        rest = others;
    }
}

/// Places the words of some bytes in the registers of a list that may have R15.
#[tactic(auto, using(arm_step::proofs::PageBlocks::placing))]
#[inline(always)]
fn place_each(cpu: &mut Cpu, list: u32, bytes: &[u8])
    requires size { length bytes.now ≡ 4 * length (registers_of_list list) }
    requires bits { list < 2 ^ 16 }
    ensures { cpu.new ≡ with_loaded cpu.old.psr.mode cpu.old
        (registers_of_list list) (words_in bytes.now 0 (length (registers_of_list list))) }
{
    let mode = cpu.psr().mode;
    let mut at = 0;
    let mut rest = u64::from(list);
    while rest != 0 {
        let (register, others) = split_lowest(rest);
        cpu.set_result_in(mode, register, word_in(bytes, at));
        at += 4;
        rest = others;
    }
}

/// Stores the registers of a list without R15 to words of one page, the first of which lies at this
/// place of the store.
#[tactic(auto, using(arm_core::proofs::Lowest::length_next))]
#[inline(always)]
fn put_words(cpu: &Cpu, memory: &mut AddressMap, list: u32, first: u32, at: usize)
    requires low { list < 2 ^ 15 }
    requires aligned { first % 4 ≡ 0 }
    requires page { are_in_page first (length (registers_of_list list)) ≡ true }
    requires place { place memory.old first ≡ Some at }
    ensures bytes { bytes_of memory.new ≡ with_words (bytes_of memory.old) first
        (map (register_in cpu.now.psr.mode cpu.now) (registers_of_list list)) }
    ensures layout { layout memory.new ≡ layout memory.old }
    ensures marks { class_of memory.new ≡ class_of memory.old }
{
    let mut offset = 0;
    let mut rest = u64::from(list);
    while rest != 0 {
        let (register, others) = split_lowest(rest);
        let value = cpu.current(register.number() as u8);
        memory.put_word_at(first + offset as u32, at + offset, value);
        offset += 4;
        rest = others;
    }
}

/// LDM without R15, whether it is done. Where it isn't, nothing is changed.
#[tactic(auto, using(crate::proofs::Blocked::low_value, crate::proofs::Blocked::is_block_loaded))]
#[inline(always)]
fn load_registers(
    cpu: &mut Cpu,
    at: usize,
    memory: &AddressMap,
    is_up: bool,
    writes_back: bool,
    op: &Op,
) -> bool
    requires { MovesBlock true is_up writes_back false op.now }
    ensures done { result ≡ true →
        IsBlockLoaded (bytes_of memory.now) cpu.old at is_up writes_back op.now cpu.new (at + 1) }
    ensures kept { result ≡ false → cpu.new ≡ cpu.old }
{
    let _at = at;
    let (first, end) = reach(cpu, is_up, op);
    let count = count_of(true, is_up, writes_back, false, op);
    match lend_words(memory, first, count) {
        Some(bytes) => {
            if writes_back {
                set_current(cpu, op.rn, end);
            }
            place_words(cpu, op.value, bytes);
            true
        }
        None => false,
    }
}

/// LDM up with R15: where it goes, if it is done. Where it isn't, nothing is changed.
#[tactic(auto, using(crate::proofs::Blocked::list_value, crate::proofs::Blocked::is_block_loaded))]
#[inline(always)]
fn load_registers_with_pc(
    cpu: &mut Cpu,
    at: usize,
    memory: &AddressMap,
    writes_back: bool,
    op: &Op,
) -> Option<usize>
    requires known { MovesBlock true true writes_back true op.now }
    requires at { at < 2 ^ 24 }
    ensures done { MatchOption result (cpu.new ≡ cpu.old) (λ next.
        IsBlockLoaded (bytes_of memory.now) cpu.old at true writes_back op.now cpu.new next) }
    ensures within { IfSome result (λ next. next ≤ 2 ^ 24) }
{
    let (first, end) = reach(cpu, true, op);
    let count = count_of(true, true, writes_back, true, op);
    match lend_words(memory, first, count) {
        Some(bytes) => {
            stand(cpu, at + 1);
            if writes_back {
                set_current(cpu, op.rn, end);
            }
            place_each(cpu, op.value, bytes);
            Some(position(cpu))
        }
        None => None,
    }
}

/// STM without R15, whether it is done. Where it isn't, nothing is changed.
#[tactic(auto, using(crate::proofs::Blocked::low_value))]
#[inline(always)]
fn store_registers(
    cpu: &mut Cpu,
    memory: &mut AddressMap,
    is_up: bool,
    writes_back: bool,
    op: &Op,
) -> bool
    requires { MovesBlock false is_up writes_back false op.now }
    ensures done { result ≡ true →
        IsBlockStored (is_owned memory.old) (bytes_of memory.old) cpu.old is_up writes_back op.now
        cpu.new (bytes_of memory.new) }
    ensures core { result ≡ false → cpu.new ≡ cpu.old }
    ensures bytes { result ≡ false → bytes_of memory.new ≡ bytes_of memory.old }
    ensures layout { layout memory.new ≡ layout memory.old }
    ensures marks { class_of memory.new ≡ class_of memory.old }
{
    let (first, end) = reach(cpu, is_up, op);
    let count = count_of(false, is_up, writes_back, false, op);
    match free_place(memory, first, count) {
        Some(place) => {
            put_words(cpu, memory, op.value, first, place);
            if writes_back {
                set_current(cpu, op.rn, end);
            }
            true
        }
        None => false,
    }
}

/// LDM without R15: where the program goes on, or `None` where another turn comes.
#[tactic(auto, using(crate::proofs::Blocked::loads_block, crate::proofs::Transferred::acts_from))]
pub(crate) fn load_block(
    cpu: &mut Cpu,
    at: usize,
    memory: &mut AddressMap,
    is_up: bool,
    writes_back: bool,
    op: &Op,
) -> Option<usize>
    requires known { MovesBlock true is_up writes_back false op.now }
    requires at { at < 2 ^ 24 }
    requires fetched { IsFetched (bytes_of memory.old) at op.now.word }
    ensures state { Acts (is_owned memory.old) cpu.old at (bytes_of memory.old)
        result cpu.new (bytes_of memory.new) }
    ensures within { IfSome result (λ next. next ≤ 2 ^ 24) }
    ensures layout { layout memory.new ≡ layout memory.old }
    ensures marks { class_of memory.new ≡ class_of memory.old }
{
    if load_registers(cpu, at, memory, is_up, writes_back, op) {
        return Some(at + 1);
    }
    slowly(cpu, at, memory)
}

/// LDM up with R15: where the program goes on, or `None` where another turn comes.
#[tactic(auto, using(crate::proofs::Blocked::loads_block, crate::proofs::Transferred::acts_from))]
#[inline(never)]
pub(crate) fn load_block_with_pc(
    cpu: &mut Cpu,
    at: usize,
    memory: &mut AddressMap,
    writes_back: bool,
    op: &Op,
) -> Option<usize>
    requires known { MovesBlock true true writes_back true op.now }
    requires at { at < 2 ^ 24 }
    requires fetched { IsFetched (bytes_of memory.old) at op.now.word }
    ensures state { Acts (is_owned memory.old) cpu.old at (bytes_of memory.old)
        result cpu.new (bytes_of memory.new) }
    ensures within { IfSome result (λ next. next ≤ 2 ^ 24) }
    ensures layout { layout memory.new ≡ layout memory.old }
    ensures marks { class_of memory.new ≡ class_of memory.old }
{
    if let Some(next) = load_registers_with_pc(cpu, at, memory, writes_back, op) {
        return Some(next);
    }
    slowly(cpu, at, memory)
}

/// STM without R15: where the program goes on, or `None` where another turn comes.
#[tactic(auto, using(crate::proofs::Blocked::stores_block, crate::proofs::Transferred::acts_from))]
#[inline(always)]
pub(crate) fn store_block(
    cpu: &mut Cpu,
    at: usize,
    memory: &mut AddressMap,
    is_up: bool,
    writes_back: bool,
    op: &Op,
) -> Option<usize>
    requires known { MovesBlock false is_up writes_back false op.now }
    requires at { at < 2 ^ 24 }
    requires fetched { IsFetched (bytes_of memory.old) at op.now.word }
    ensures state { Acts (is_owned memory.old) cpu.old at (bytes_of memory.old)
        result cpu.new (bytes_of memory.new) }
    ensures within { IfSome result (λ next. next ≤ 2 ^ 24) }
    ensures layout { layout memory.new ≡ layout memory.old }
    ensures marks { class_of memory.new ≡ class_of memory.old }
{
    if store_registers(cpu, memory, is_up, writes_back, op) {
        return Some(at + 1);
    }
    slowly(cpu, at, memory)
}

/// STM without R15 that keeps its base, which few programs have: where the program goes on, or
/// `None` where another turn comes.
pub(crate) fn store_block_keeping_base(
    cpu: &mut Cpu,
    at: usize,
    memory: &mut AddressMap,
    is_up: bool,
    op: &Op,
) -> Option<usize>
    requires known { MovesBlock false is_up false false op.now }
    requires at { at < 2 ^ 24 }
    requires fetched { IsFetched (bytes_of memory.old) at op.now.word }
    ensures state { Acts (is_owned memory.old) cpu.old at (bytes_of memory.old)
        result cpu.new (bytes_of memory.new) }
    ensures within { IfSome result (λ next. next ≤ 2 ^ 24) }
    ensures layout { layout memory.new ≡ layout memory.old }
    ensures marks { class_of memory.new ≡ class_of memory.old }
{
    store_block(cpu, at, memory, is_up, false, op)
}
