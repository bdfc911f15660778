//! LDR and STR by predecoded words. What they can't do, as a transfer that is a fault, is left to
//! the way that is right for every word.

ghost use Rattle.std.specs.Prelude.{◌≡◌, ◌<◌, ◌≤◌, ◌^◌, true, false, IfSome, Ok, MatchOption, ⊤};
ghost use Rattle.arm_step.specs.Memory.{bytes_of, is_owned, layout, class_of};
ghost use Rattle.arm_core.specs.Operand.{shifted_by_number};
ghost use Rattle.arm_core.specs.State.{register_in};
ghost use Rattle.arm_core.specs.Shift.{Shift};
ghost use Rattle.arm_predecode.specs.Kinds.{LoadsBeside, TransfersByNumber, TransfersByRegister};
ghost use Rattle.arm_run.specs.Moved.{IsLoaded, IsStored, base_moved, address_reached, with_moved_base};
ghost use Rattle.arm_run.specs.Standing.{Acts, IsFetched};
ghost use Rattle.arm_step.specs.Transfers.{value_loaded, value_stored};

use crate::branching::ahead;
use crate::standing::{current, set_current, slowly};
use arm_core::{Cpu, Indexing, rotate_right};
use arm_predecode::Op;
use arm_step::AddressMap;

/// The byte at an address, or the word there, rotated so that the byte at the address is lowest.
#[inline(always)]
fn load_value(memory: &AddressMap, is_byte: bool, address: u32) -> Option<u32>
    ensures { MatchOption result ⊤ (λ v. value_loaded (bytes_of memory.now) is_byte address ≡ Ok v) }
{
    if is_byte {
        return match memory.load_byte(address) {
            Ok(byte) => Some(u32::from(byte)),
            Err(_) => None,
        };
    }
    match memory.load_word(address) {
        Ok(word) => Some(rotate_right(word, 8 * (address % 4))),
        Err(_) => None,
    }
}

/// Stores the low byte of a value, or all of it as the word that holds the address; whether that
/// could be done.
#[inline(always)]
fn store_value(memory: &mut AddressMap, is_byte: bool, address: u32, value: u32) -> bool
    ensures done { result ≡ true →
        value_stored (is_owned memory.old) (bytes_of memory.old) is_byte address value
        ≡ Ok (bytes_of memory.new) }
    ensures kept { result ≡ false → bytes_of memory.new ≡ bytes_of memory.old }
    ensures layout { layout memory.new ≡ layout memory.old }
    ensures marks { class_of memory.new ≡ class_of memory.old }
{
    if is_byte {
        memory.store_byte(address, (value % 256) as u8).is_ok()
    } else {
        memory.store_word(address, value).is_ok()
    }
}

/// The base after a transfer.
#[inline(always)]
fn base_moved(cpu: &Cpu, op: &Op, added: u32) -> u32
    requires { op.now.rn < 15 }
    ensures { result ≡ base_moved cpu.now op.now added }
{
    current(cpu, op.rn).wrapping_add(added)
}

/// Where a transfer reads or writes.
#[inline(always)]
fn address_reached(cpu: &Cpu, indexing: Indexing, op: &Op, added: u32) -> u32
    requires { op.now.rn < 15 }
    ensures { result ≡ address_reached indexing cpu.now op.now added }
{
    match indexing {
        Indexing::Pre { .. } => base_moved(cpu, op, added),
        Indexing::Post { .. } => current(cpu, op.rn),
    }
}

/// Writes the changed base back where the transfer does that.
#[inline(always)]
fn move_base(cpu: &mut Cpu, indexing: Indexing, op: &Op, added: u32)
    requires { op.now.rn < 15 }
    ensures { cpu.new ≡ with_moved_base indexing cpu.old op.now added }
{
    if indexing.writes_base() {
        let moved = base_moved(cpu, op, added);
        set_current(cpu, op.rn, moved);
    }
}

/// LDR, whether it is done. Where it isn't, nothing is changed.
#[tactic(auto, using(crate::proofs::Transferred::is_loaded))]
#[inline(always)]
fn load(
    cpu: &mut Cpu,
    memory: &AddressMap,
    is_byte: bool,
    indexing: Indexing,
    added: u32,
    op: &Op,
) -> bool
    requires rd { op.now.rd < 15 }
    requires rn { op.now.rn < 15 }
    ensures done { result ≡ true →
        IsLoaded (bytes_of memory.now) cpu.old is_byte indexing added op.now cpu.new }
    ensures kept { result ≡ false → cpu.new ≡ cpu.old }
{
    let address = address_reached(cpu, indexing, op, added);
    match load_value(memory, is_byte, address) {
        Some(value) => {
            move_base(cpu, indexing, op, added);
            set_current(cpu, op.rd, value);
            true
        }
        None => false,
    }
}

/// STR, whether it is done. Where it isn't, nothing is changed.
#[inline(always)]
fn store(
    cpu: &mut Cpu,
    memory: &mut AddressMap,
    is_byte: bool,
    indexing: Indexing,
    added: u32,
    op: &Op,
) -> bool
    requires rd { op.now.rd < 15 }
    requires rn { op.now.rn < 15 }
    ensures done { result ≡ true →
        IsStored (is_owned memory.old) (bytes_of memory.old) cpu.old is_byte indexing added op.now
        cpu.new (bytes_of memory.new) }
    ensures core { result ≡ false → cpu.new ≡ cpu.old }
    ensures bytes { result ≡ false → bytes_of memory.new ≡ bytes_of memory.old }
    ensures layout { layout memory.new ≡ layout memory.old }
    ensures marks { class_of memory.new ≡ class_of memory.old }
{
    let address = address_reached(cpu, indexing, op, added);
    let value = current(cpu, op.rd);
    if !store_value(memory, is_byte, address, value) {
        return false;
    }
    move_base(cpu, indexing, op, added);
    true
}

/// What is added to the base for a register as offset.
#[tactic(auto, using(crate::proofs::Transferred::left_shifted))]
#[inline(always)]
fn offset(cpu: &Cpu, op: &Op) -> u32
    requires rm { op.now.rm < 15 }
    requires amount { op.now.value < 32 }
    ensures { result ≡ (shifted_by_number Shift.LogicalLeft
        (register_in cpu.now.psr.mode cpu.now op.now.rm) op.now.value cpu.now.psr.carry).value }
{
    current(cpu, op.rm) << op.value
}

/// LDR with a number as offset: where the program goes on, or `None` where another turn comes.
#[tactic(auto, using(crate::proofs::Transferred::loads_by_number, crate::proofs::Transferred::acts_from))]
pub(crate) fn load_by_number(
    cpu: &mut Cpu,
    at: usize,
    memory: &mut AddressMap,
    is_byte: bool,
    indexing: Indexing,
    op: &Op,
) -> Option<usize>
    requires known { TransfersByNumber true is_byte indexing op.now }
    requires at { at < 2 ^ 24 }
    requires fetched { IsFetched (bytes_of memory.old) at op.now.word }
    ensures state { Acts (is_owned memory.old) cpu.old at (bytes_of memory.old)
        result cpu.new (bytes_of memory.new) }
    ensures within { IfSome result (λ next. next ≤ 2 ^ 24) }
    ensures layout { layout memory.new ≡ layout memory.old }
    ensures marks { class_of memory.new ≡ class_of memory.old }
{
    let added = op.value;
    if load(cpu, memory, is_byte, indexing, added, op) {
        return Some(at + 1);
    }
    slowly(cpu, at, memory)
}

/// STR with a number as offset: where the program goes on, or `None` where another turn comes.
#[tactic(auto, using(crate::proofs::Transferred::stores_by_number, crate::proofs::Transferred::acts_from))]
pub(crate) fn store_by_number(
    cpu: &mut Cpu,
    at: usize,
    memory: &mut AddressMap,
    is_byte: bool,
    indexing: Indexing,
    op: &Op,
) -> Option<usize>
    requires known { TransfersByNumber false is_byte indexing op.now }
    requires at { at < 2 ^ 24 }
    requires fetched { IsFetched (bytes_of memory.old) at op.now.word }
    ensures state { Acts (is_owned memory.old) cpu.old at (bytes_of memory.old)
        result cpu.new (bytes_of memory.new) }
    ensures within { IfSome result (λ next. next ≤ 2 ^ 24) }
    ensures layout { layout memory.new ≡ layout memory.old }
    ensures marks { class_of memory.new ≡ class_of memory.old }
{
    let added = op.value;
    if store(cpu, memory, is_byte, indexing, added, op) {
        return Some(at + 1);
    }
    slowly(cpu, at, memory)
}

/// LDR with a register as offset: where the program goes on, or `None` where another turn comes.
#[tactic(auto, using(crate::proofs::Transferred::loads_by_register, crate::proofs::Transferred::acts_from))]
pub(crate) fn load_by_register(
    cpu: &mut Cpu,
    at: usize,
    memory: &mut AddressMap,
    is_byte: bool,
    indexing: Indexing,
    op: &Op,
) -> Option<usize>
    requires known { TransfersByRegister true is_byte indexing op.now }
    requires at { at < 2 ^ 24 }
    requires fetched { IsFetched (bytes_of memory.old) at op.now.word }
    ensures state { Acts (is_owned memory.old) cpu.old at (bytes_of memory.old)
        result cpu.new (bytes_of memory.new) }
    ensures within { IfSome result (λ next. next ≤ 2 ^ 24) }
    ensures layout { layout memory.new ≡ layout memory.old }
    ensures marks { class_of memory.new ≡ class_of memory.old }
{
    let added = offset(cpu, op);
    if load(cpu, memory, is_byte, indexing, added, op) {
        return Some(at + 1);
    }
    slowly(cpu, at, memory)
}

/// STR with a register as offset: where the program goes on, or `None` where another turn comes.
#[tactic(auto, using(crate::proofs::Transferred::stores_by_register, crate::proofs::Transferred::acts_from))]
pub(crate) fn store_by_register(
    cpu: &mut Cpu,
    at: usize,
    memory: &mut AddressMap,
    is_byte: bool,
    indexing: Indexing,
    op: &Op,
) -> Option<usize>
    requires known { TransfersByRegister false is_byte indexing op.now }
    requires at { at < 2 ^ 24 }
    requires fetched { IsFetched (bytes_of memory.old) at op.now.word }
    ensures state { Acts (is_owned memory.old) cpu.old at (bytes_of memory.old)
        result cpu.new (bytes_of memory.new) }
    ensures within { IfSome result (λ next. next ≤ 2 ^ 24) }
    ensures layout { layout memory.new ≡ layout memory.old }
    ensures marks { class_of memory.new ≡ class_of memory.old }
{
    let added = offset(cpu, op);
    if store(cpu, memory, is_byte, indexing, added, op) {
        return Some(at + 1);
    }
    slowly(cpu, at, memory)
}

/// LDR of a word from beside R15: where the program goes on, or `None` where another turn comes.
#[tactic(auto, using(crate::proofs::Beside::loads_beside, crate::proofs::Transferred::acts_from))]
pub(crate) fn load_beside(
    cpu: &mut Cpu,
    at: usize,
    memory: &mut AddressMap,
    op: &Op,
) -> Option<usize>
    requires known { LoadsBeside op.now }
    requires at { at < 2 ^ 24 }
    requires fetched { IsFetched (bytes_of memory.old) at op.now.word }
    ensures state { Acts (is_owned memory.old) cpu.old at (bytes_of memory.old)
        result cpu.new (bytes_of memory.new) }
    ensures within { IfSome result (λ next. next ≤ 2 ^ 24) }
    ensures layout { layout memory.new ≡ layout memory.old }
    ensures marks { class_of memory.new ≡ class_of memory.old }
{
    let address = (ahead(at, 2) as u32 * 4).wrapping_add(op.value);
    match load_value(memory, false, address) {
        Some(value) => {
            set_current(cpu, op.rd, value);
            Some(at + 1)
        }
        None => slowly(cpu, at, memory),
    }
}
