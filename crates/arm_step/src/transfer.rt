//! LDR and STR.

ghost use Rattle.std.specs.Prelude.{◌≡◌, ◌<◌, ◌≤◌, ◌^◌, ◌%◌};
ghost use Rattle.address_map.specs.Outcome.{Leaves};
ghost use Rattle.address_map.specs.Memory.{bytes_of, is_owned, layout, class_of};
ghost use Rattle.arm_step.specs.Transfers.{offset_amount, moved_base, transfer_address, with_base, value_loaded, value_stored, result_of_load, result_of_store, result_of_transfer};

use address_map::AddressMap;
use arm_core::Cpu;
use arm_decode::shifted::rotate_right;
use arm_decode::{Address, Direction, Fault, Indexing, Offset, Transfer};

/// The byte at an address, or the word there, rotated so that the byte at the address is lowest.
#[inline(always)]
fn load_value(memory: &AddressMap, is_byte: bool, address: u32) -> Result<u32, Fault>
    ensures { result ≡ value_loaded (bytes_of memory.now) is_byte address }
{
    if is_byte {
        let byte = memory.load_byte(address)?;
        Ok(u32::from(byte))
    } else {
        let word = memory.load_word(address)?;
        Ok(rotate_right(word, 8 * (address % 4)))
    }
}

/// Stores the low byte of a value, or all of it as the word that holds the address.
#[inline(always)]
fn store_value(
    memory: &mut AddressMap,
    is_byte: bool,
    address: u32,
    value: u32,
) -> Result<(), Fault>
    ensures bytes { let stored = value_stored (is_owned memory.old)
        (bytes_of memory.old) is_byte address value in
        Leaves (bytes_of memory.old) stored result (bytes_of memory.new) }
    ensures layout { layout memory.new ≡ layout memory.old }
    ensures marks { class_of memory.new ≡ class_of memory.old }
{
    if is_byte {
        memory.store_byte(address, (value % 256) as u8)
    } else {
        memory.store_word(address, value)
    }
}

/// The offset of a transfer.
#[inline(always)]
fn offset_of(cpu: &Cpu, offset: &Offset) -> u32
    ensures { result ≡ offset_amount cpu.now offset.now }
{
    match offset {
        Offset::Immediate(number) => number.number(),
        Offset::Shifted(shifted) => cpu.shifted_register(*shifted).value,
    }
}

/// The base of a transfer changed by its offset.
#[inline(always)]
fn moved_base(cpu: &Cpu, address: &Address) -> u32
    ensures { result ≡ moved_base cpu.now address.now }
{
    let base = cpu.plain_operand(address.rn, 2);
    let offset = offset_of(cpu, &address.offset);
    match address.direction {
        Direction::Up => base.wrapping_add(offset),
        Direction::Down => base.wrapping_sub(offset),
    }
}

/// Where a transfer reads or writes.
#[inline(always)]
fn transfer_address(cpu: &Cpu, address: &Address) -> u32
    ensures { result ≡ transfer_address cpu.now address.now }
{
    match address.indexing {
        Indexing::Pre { .. } => moved_base(cpu, address),
        Indexing::Post { .. } => cpu.plain_operand(address.rn, 2),
    }
}

/// Writes the changed base back where the transfer does that.
#[inline(always)]
fn write_base(cpu: &mut Cpu, address: &Address, moved: u32)
    ensures { cpu.new ≡ with_base cpu.old address.now moved }
{
    if address.indexing.writes_base() {
        cpu.set_result(address.rn, moved);
    }
}

/// LDR: the base is written first, so a loaded base wins.
#[inline(always)]
fn load(cpu: &mut Cpu, memory: &AddressMap, transfer: &Transfer) -> Result<(), Fault>
    ensures { let loaded = result_of_load cpu.old (bytes_of memory.now) transfer.now in
        Leaves (cpu.old, bytes_of memory.now) loaded result (cpu.new, bytes_of memory.now) }
{
    let value = load_value(
        memory,
        transfer.is_byte,
        transfer_address(cpu, &transfer.address),
    )?;
    let moved = moved_base(cpu, &transfer.address);
    cpu.advance();
    write_base(cpu, &transfer.address, moved);
    cpu.set_result(transfer.rd, value);
    Ok(())
}

/// STR: R15 is stored three words ahead with the status, the base with its old value.
#[inline(always)]
fn store(cpu: &mut Cpu, memory: &mut AddressMap, transfer: &Transfer) -> Result<(), Fault>
    ensures state { let stored = result_of_store (is_owned memory.old) cpu.old (bytes_of memory.old)
        transfer.now in
        Leaves (cpu.old, bytes_of memory.old) stored result (cpu.new, bytes_of memory.new) }
    ensures layout { layout memory.new ≡ layout memory.old }
    ensures marks { class_of memory.new ≡ class_of memory.old }
{
    let value = cpu.status_operand(cpu.psr().mode, transfer.rd, 3);
    store_value(
        memory,
        transfer.is_byte,
        transfer_address(cpu, &transfer.address),
        value,
    )?;
    let moved = moved_base(cpu, &transfer.address);
    cpu.advance();
    write_base(cpu, &transfer.address, moved);
    Ok(())
}

/// LDR and STR: one register is loaded or stored.
///
/// # Errors
///
/// `AddressException`, `DataUnmapped`, and for a store `OwnedWord`, in this order. Core and
/// memory are then as before.
#[tactic(auto, unfolding(crate::specs::Transfers::result_of_transfer))]
#[inline(always)]
pub(crate) fn transfer_one(
    cpu: &mut Cpu,
    memory: &mut AddressMap,
    transfer: &Transfer,
) -> Result<(), Fault>
    ensures state { let moved = result_of_transfer (is_owned memory.old) cpu.old
        (bytes_of memory.old) transfer.now in
        Leaves (cpu.old, bytes_of memory.old) moved result (cpu.new, bytes_of memory.new) }
    ensures layout { layout memory.new ≡ layout memory.old }
    ensures marks { class_of memory.new ≡ class_of memory.old }
{
    if transfer.loads {
        load(cpu, memory, transfer)
    } else {
        store(cpu, memory, transfer)
    }
}
