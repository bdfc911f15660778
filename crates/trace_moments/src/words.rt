//! Words of memory in records.

ghost use Rattle.std.specs.Prelude.{◌<◌, [], ◌∷◌, map, OnOk};
ghost use Rattle.trace_moments.specs.Fields.{HasMore};
ghost use Rattle.trace_moments.specs.WordFields.{more_words, some_words, word_fields, word_numbers, word_text};

use address_map::AddressMap;
use profile::memory_map::{ADDRESS_LIMIT, PAGE_SIZE};
use std::alloc::AllocError;
use trace_effects::record_text::{Bracket, RecordText};
use trace_effects::shown_words::ShownWord;

/// The most words that a record has.
const MOST_WORDS: usize = 4096;

/// Writes words with their old and new values, if there are some: 4,096 of them, and how many there are
/// more.
///
/// # Errors
///
/// Memory ran out.
pub fn push_words(text: &mut RecordText, words: &[ShownWord]) -> Result<(), AllocError>
    ensures { OnOk result (HasMore text.old text.new (word_fields words.now)) }
{
    let reported = words.len().min(MOST_WORDS);
    push_some_words(text, &words[..reported])?;
    push_more(text, words.len())?;
    Ok(())
}

fn push_some_words(text: &mut RecordText, words: &[ShownWord]) -> Result<(), AllocError>
    ensures { OnOk result (HasMore text.old text.new (some_words words.now)) }
{
    if words.is_empty() {
        return Ok(());
    }
    text.open_field(b"mem", Bracket::List)?;
    push_each_word(text, words)?;
    text.close(Bracket::List)?;
    Ok(())
}

fn push_each_word(text: &mut RecordText, words: &[ShownWord]) -> Result<(), AllocError>
    ensures { OnOk result (HasMore text.old text.new (map word_text words.now)) }
{
    for word in words {
        push_word(text, word)?;
    }
    Ok(())
}

fn push_word(text: &mut RecordText, word: &ShownWord) -> Result<(), AllocError>
    ensures { OnOk result (HasMore text.old text.new (word_text word.now ∷ [])) }
{
    text.open(Bracket::List)?;
    push_numbers(text, word)?;
    text.close(Bracket::List)?;
    Ok(())
}

fn push_numbers(text: &mut RecordText, word: &ShownWord) -> Result<(), AllocError>
    ensures { OnOk result (HasMore text.old text.new (word_numbers word.now)) }
{
    text.number(u64::from(word.at))?;
    text.number(u64::from(word.old))?;
    text.number(u64::from(word.new))?;
    Ok(())
}

#[tactic(auto, using(crate::proofs::FieldLemmas::one_or_none))]
fn push_more(text: &mut RecordText, count: usize) -> Result<(), AllocError>
    ensures { OnOk result (HasMore text.old text.new (more_words count)) }
{
    if count <= MOST_WORDS {
        return Ok(());
    }
    text.number_field(b"more", (count - MOST_WORDS) as u64)?;
    Ok(())
}

/// Writes words that were read.
///
/// # Errors
///
/// Memory ran out.
pub fn push_reads(text: &mut RecordText, words: &[ShownWord]) -> Result<(), AllocError> {
    if words.is_empty() {
        return Ok(());
    }
    text.open_field(b"reads", Bracket::List)?;
    for word in words {
        text.numbers(&[word.at, word.old])?;
    }
    text.close(Bracket::List)
}

/// Writes where memory is mapped, and all words that aren't 0.
///
/// # Errors
///
/// Memory ran out.
pub fn push_memory(text: &mut RecordText, memory: &AddressMap) -> Result<(), AllocError> {
    push_mapped(text, memory)?;
    text.open_field(b"mem", Bracket::List)?;
    for page in 0..ADDRESS_LIMIT / PAGE_SIZE {
        push_page(text, memory, PAGE_SIZE * page)?;
    }
    text.close(Bracket::List)
}

fn push_page(text: &mut RecordText, memory: &AddressMap, page: u32) -> Result<(), AllocError>
    requires { page < 67108864 }
{
    if memory.translate(page).is_none() {
        return Ok(());
    }
    for index in 0..PAGE_SIZE / 4 {
        let at = page + 4 * index;
        let word = memory.load_word(at).unwrap_or(0);
        if word != 0 {
            text.numbers(&[at, 0, word])?;
        }
    }
    Ok(())
}

// The ranges of memory that are mapped, each by its address and its bytes.
fn push_mapped(text: &mut RecordText, memory: &AddressMap) -> Result<(), AllocError> {
    text.open_field(b"mapped", Bracket::List)?;
    let mut first = 0;
    let mut pages: u32 = 0;
    for page in 0..ADDRESS_LIMIT / PAGE_SIZE {
        if memory.translate(PAGE_SIZE * page).is_some() {
            if pages == 0 {
                first = page;
            }
            pages = pages.saturating_add(1);
        } else if pages > 0 {
            push_range(text, first, pages)?;
            pages = 0;
        }
    }
    if pages > 0 {
        push_range(text, first, pages)?;
    }
    text.close(Bracket::List)
}

fn push_range(text: &mut RecordText, first: u32, pages: u32) -> Result<(), AllocError> {
    text.open(Bracket::List)?;
    text.number(u64::from(PAGE_SIZE) * u64::from(first))?;
    text.number(u64::from(PAGE_SIZE) * u64::from(pages))?;
    text.close(Bracket::List)
}
