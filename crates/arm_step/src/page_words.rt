//! Words that lie in one page, as nearly all blocks do: the page is looked up once for all of them.

ghost use Rattle.std.specs.Prelude.{◌≡◌, ◌≤◌, ◌+◌, ◌*◌, ◌%◌, true, Some, None, Ok, Err, length, slice_index, MatchResult};
ghost use Rattle.address_map.specs.Bytes.{word_at};
ghost use Rattle.address_map.specs.Memory.{bytes_of, is_owned, place};
ghost use Rattle.arm_step.specs.PageWords.{are_in_page, missing, words_in};
ghost use Rattle.arm_step.specs.Words.{words_loaded, words_store_fault};

use address_map::{AddressMap, PAGE_SIZE};
use arm_decode::{ADDRESS_LIMIT, Fault};
use byteorder::{ByteOrder, LittleEndian};

/// Whether some words lie in one page, and are at least one.
#[inline(always)]
pub(crate) fn are_in_page(first: u32, count: u32) -> bool
    requires { count ≤ 16 }
    ensures { result ≡ are_in_page first count }
{
    count > 0 && first % PAGE_SIZE + 4 * count <= PAGE_SIZE
}

/// The fault of words that are not mapped, by the address of the first.
#[inline(always)]
fn missing(first: u32) -> Fault
    ensures { result ≡ missing first }
{
    if first < ADDRESS_LIMIT {
        Fault::DataUnmapped
    } else {
        Fault::AddressException
    }
}

/// The word at a place of some bytes.
#[inline(always)]
pub(crate) fn word_in(bytes: &[u8], at: usize) -> u32
    requires { at + 4 ≤ length bytes.now }
    ensures { result ≡ word_at (slice_index bytes.now) at }
{
    LittleEndian::read_u32(&bytes[at..at + 4])
}

/// The bytes of words in one page, for reading.
///
/// # Errors
///
/// `AddressException` where they lie past the address space, else `DataUnmapped`.
#[tactic(auto, using(crate::proofs::PageWords::loading))]
#[inline(always)]
pub(crate) fn lend_words(memory: &AddressMap, first: u32, count: u32) -> Result<&[u8], Fault>
    requires page { are_in_page first count ≡ true }
    requires few { count ≤ 16 }
    ensures { let loaded = words_loaded (bytes_of memory.now) first count in
        MatchResult result (λ bytes. (loaded ≡ Ok (words_in bytes.now 0 count)) ×
        (length bytes.now ≡ 4 * count))
        (λ fault. loaded ≡ Err fault) }
{
    match memory.lend(first, 4 * count) {
        Some(bytes) => Ok(bytes),
        None => Err(missing(first)),
    }
}

/// Where the first of some words in one page lies in the store, if a guest may store to them all.
///
/// # Errors
///
/// `AddressException` where they lie past the address space, else `DataUnmapped`, else `OwnedWord`
/// where any of them is owned.
#[tactic(auto, using(crate::proofs::PageWords::storing))]
#[inline(always)]
pub(crate) fn free_place(memory: &AddressMap, first: u32, count: u32) -> Result<usize, Fault>
    requires aligned { first % 4 ≡ 0 }
    requires few { count ≤ 16 }
    requires page { are_in_page first count ≡ true }
    ensures { let fault_of = words_store_fault (is_owned memory.now) (bytes_of memory.now) first count in
        MatchResult result (λ at. (fault_of ≡ None) × (place memory.now first ≡ Some at))
        (λ fault. fault_of ≡ Some fault) }
{
    match memory.translate(first) {
        None => Err(missing(first)),
        Some(at) if memory.owns_any(first, at, count) => Err(Fault::OwnedWord),
        Some(at) => Ok(at),
    }
}
