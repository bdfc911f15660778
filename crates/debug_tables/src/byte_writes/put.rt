//! The words that bytes lie in: where they refuse, and how they are stored.

ghost use Rattle.std.specs.Prelude.{◌≡◌, ◌<◌, ◌≤◌, ◌+◌, ◌%◌, ◌^◌, None, List, length};
ghost use Rattle.address_map.specs.Bytes.{with_bytes_at};
ghost use Rattle.address_map.specs.Memory.{byte_at, bytes_of, is_owned};
ghost use Rattle.debug_tables.specs.byte_writes.Put.{IsWordOf, bytes_fit, put_fault as put_fault_shown, script_after_put, script_with_bytes, word_count as word_count_shown, words_fault as words_fault_shown};
ghost use Rattle.command_shell.specs.Session.{script_state};
ghost use Rattle.profile.specs.images.Entries.{Entry};
ghost use Rattle.profile.specs.Outcome.{Leaves};
ghost use Rattle.command_shell.specs.GuestState.{state_of};

use address_map::AddressMap;
use command_shell::{Machine, Session};
use profile::Fault;

/// Writes bytes to memory, the first of them at an address: all of them, or none. The words that they
/// lie in are stored as a guest's stores would, each with what stands beside the bytes in it.
///
/// # Errors
///
/// The fault of the first word that refuses, and nothing is changed then: `AddressException` from 2^26
/// on, else `DataUnmapped`, else `OwnedWord`.
pub fn put_bytes(session: &mut Session, at: u32, bytes: &[u8]) -> Result<(), Fault>
    ensures { (images : List Entry) → Leaves (script_state session.old images)
        (script_after_put (script_state session.old images) at bytes.now) result
        (script_state session.new images) }
{
    if bytes.is_empty() {
        return Ok(());
    }
    match put_fault(session.machine(), at, bytes) {
        Some(fault) => Err(fault),
        None => {
            store_words(session, at, bytes);
            Ok(())
        }
    }
}

/// Whether bytes can be written to an address.
pub(crate) fn fits(machine: &Machine, at: u32, bytes: &[u8]) -> bool
    ensures { result ≡ bytes_fit (state_of machine.now.guest).store at bytes.now }
{
    bytes.is_empty() || put_fault(machine, at, bytes).is_none()
}

// The fault that bytes meet.
fn put_fault(machine: &Machine, at: u32, bytes: &[u8]) -> Option<Fault>
    ensures { result ≡ put_fault_shown (state_of machine.now.guest).store at (length bytes.now) }
{
    machine.known();
    words_fault(machine.memory(), at - at % 4, word_count(at, bytes))
}

// The first fault that stores of so many words meet.
#[tactic(auto, using(crate::proofs::ByteWritesLemmas::WordLemmas::fault_steps), unfolding(address_map::specs::Bytes::byte_loaded))]
fn words_fault(map: &AddressMap, start: u32, count: u64) -> Option<Fault>
    ensures { result ≡ words_fault_shown (is_owned map.now) (bytes_of map.now) start count }
{
    let mut address = start;
    let mut left = count;
    while left > 0 {
        if let Err(fault) = map.load_byte(address) {
            return Some(fault);
        }
        if map.owns(address) {
            return Some(Fault::OwnedWord);
        }
        address += 4;
        left -= 1;
    }
    None
}

// How many words bytes lie in.
fn word_count(at: u32, bytes: &[u8]) -> u64
    ensures { result ≡ word_count_shown at (length bytes.now) }
{
    (u64::from(at % 4) + bytes.len() as u64 + 3) / 4
}

// Stores the words that bytes lie in, none of which refuses.
fn store_words(session: &mut Session, at: u32, bytes: &[u8])
    requires some { 0 < length bytes.now }
    requires free { put_fault_shown (state_of session.old.machine.guest).store at (length bytes.now) ≡ None }
    ensures { (images : List Entry) → script_state session.new images
        ≡ script_with_bytes (script_state session.old images) at bytes.now }
{
    let mut address = at - at % 4;
    let mut left = word_count(at, bytes);
    while left > 0 {
        let word = mixed_word(session.machine().memory(), address, at, bytes);
        let _stored = session.store_word(address, word);
        address += 4;
        left -= 1;
    }
}

// The word that an address is to have: of bytes, the first of them at `at`, those that lie in it, and
// beside them what stands there.
fn mixed_word(map: &AddressMap, address: u32, at: u32, bytes: &[u8]) -> u32
    requires { address + 4 ≤ 2 ^ 26 }
    ensures { IsWordOf (with_bytes_at (byte_at map.now) at bytes.now) address result }
{
    u32::from_le_bytes([
        mixed_byte(map, address, at, bytes),
        mixed_byte(map, address + 1, at, bytes),
        mixed_byte(map, address + 2, at, bytes),
        mixed_byte(map, address + 3, at, bytes),
    ])
}

fn mixed_byte(map: &AddressMap, address: u32, at: u32, bytes: &[u8]) -> u8
    requires { address < 2 ^ 26 }
    ensures { result ≡ with_bytes_at (byte_at map.now) at bytes.now address }
{
    if address < at {
        return present_byte(map, address);
    }
    match bytes.get((address - at) as usize) {
        Some(byte) => *byte,
        None => present_byte(map, address),
    }
}

// The byte that stands at an address, 0 where no memory is mapped.
#[tactic(auto, unfolding(address_map::specs::Bytes::byte_loaded))]
fn present_byte(map: &AddressMap, address: u32) -> u8
    requires { address < 2 ^ 26 }
    ensures { result ≡ byte_at map.now address }
{
    match map.load_byte(address) {
        Ok(byte) => byte,
        Err(_) => 0,
    }
}
