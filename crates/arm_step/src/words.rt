//! Several words of memory, one after another, with the faults over all of them.

ghost use Rattle.std.specs.Prelude.{ℕ, ◌≡◌, ◌<◌, ◌≤◌, ◌+◌, ◌*◌, ◌^◌, ◌%◌, true, Ok, Err, length, MatchResult, IfOk};
ghost use Rattle.arrayvec.specs.ArrayVec.{array_vec_len};
ghost use Rattle.address_map.specs.Outcome.{Leaves};
ghost use Rattle.address_map.specs.Memory.{bytes_of, is_owned, layout, class_of};
ghost use Rattle.arm_step.specs.Words.{are_words_mapped, are_free, words_loaded, words_store_fault, words_stored, with_words};

use address_map::AddressMap;
use arm_decode::{ADDRESS_LIMIT, Fault};
use arrayvec::ArrayVec;

/// The most words that one instruction moves.
pub(crate) const MOST_WORDS: usize = 16;

/// Loads up to 16 words from a multiple of 4 on.
///
/// # Errors
///
/// `AddressException` where any of them lies past the address space, else `DataUnmapped`.
pub(crate) fn load_words(
    memory: &AddressMap,
    first: u32,
    count: u32,
) -> Result<ArrayVec<u32, MOST_WORDS>, Fault>
    requires aligned { first % 4 ≡ 0 }
    requires few { count ≤ 16 }
    ensures words { let loaded = words_loaded (bytes_of memory.now) first count in
        MatchResult result (λ v. loaded ≡ Ok v.items) (λ fault. loaded ≡ Err fault) }
    ensures size { IfOk result (λ v. length v.items ≡ count) }
{
    if first > ADDRESS_LIMIT - 4 * count {
        return Err(Fault::AddressException);
    }
    let mut words = ArrayVec::new();
    for index in 0..count {
        match memory.load_word(first + 4 * index) {
            Ok(word) => words.push(word),
            Err(_) => return Err(Fault::DataUnmapped),
        }
    }
    Ok(words)
}

/// Whether each of some words from an address on is mapped.
#[tactic(auto, using(crate::proofs::SeveralWords::mapping))]
fn are_mapped(memory: &AddressMap, first: u32, count: u32) -> bool
    requires { first + 4 * count ≤ 2 ^ 26 }
    ensures { result ≡ are_words_mapped (bytes_of memory.now) first count }
{
    for index in 0..count {
        if memory.translate(first + 4 * index).is_none() {
            return false;
        }
    }
    true
}

/// Whether a guest may store to each of some words from an address on.
#[tactic(auto, using(crate::proofs::SeveralWords::freedom))]
fn are_free(memory: &AddressMap, first: u32, count: u32) -> bool
    requires { first + 4 * count ≤ 2 ^ 26 }
    ensures { result ≡ are_free (is_owned memory.now) first count }
{
    for index in 0..count {
        if memory.owns(first + 4 * index) {
            return false;
        }
    }
    true
}

/// The fault that a store of up to 16 words would meet: `AddressException`, `DataUnmapped`,
/// `OwnedWord`, each over all of them.
fn store_fault(memory: &AddressMap, first: u32, count: u32) -> Option<Fault>
    requires { count ≤ 16 }
    ensures fault { result ≡ words_store_fault (is_owned memory.now) (bytes_of memory.now) first count }
    ensures inside { result ≡ None → first + 4 * count ≤ 2 ^ 26 }
    ensures mapped { result ≡ None → are_words_mapped (bytes_of memory.now) first count ≡ true }
{
    if first > ADDRESS_LIMIT - 4 * count {
        Some(Fault::AddressException)
    } else if !are_mapped(memory, first, count) {
        Some(Fault::DataUnmapped)
    } else if !are_free(memory, first, count) {
        Some(Fault::OwnedWord)
    } else {
        None
    }
}

/// Writes words that are mapped.
fn put_words(memory: &mut AddressMap, first: u32, words: &[u32])
    requires aligned { first % 4 ≡ 0 }
    requires inside { first + 4 * length words.now ≤ 2 ^ 26 }
    requires mapped { are_words_mapped (bytes_of memory.old) first (length words.now) ≡ true }
    ensures bytes { bytes_of memory.new ≡ with_words (bytes_of memory.old) first words.now }
    ensures layout { layout memory.new ≡ layout memory.old }
    ensures marks { class_of memory.new ≡ class_of memory.old }
{
    for index in 0..words.len() {
        memory.put_word(first + 4 * index as u32, words[index]);
    }
}

/// Stores up to 16 words from a multiple of 4 on.
///
/// # Errors
///
/// `AddressException` where any of them lies past the address space, else `DataUnmapped`, else
/// `OwnedWord`. Nothing is stored then.
pub(crate) fn store_words(memory: &mut AddressMap, first: u32, words: &[u32]) -> Result<(), Fault>
    requires aligned { first % 4 ≡ 0 }
    requires few { length words.now ≤ 16 }
    ensures bytes { let stored = words_stored (is_owned memory.old) (bytes_of memory.old) first words.now in
        Leaves (bytes_of memory.old) stored result (bytes_of memory.new) }
    ensures layout { layout memory.new ≡ layout memory.old }
    ensures marks { class_of memory.new ≡ class_of memory.old }
{
    if let Some(fault) = store_fault(memory, first, words.len() as u32) {
        return Err(fault);
    }
    put_words(memory, first, words);
    Ok(())
}
