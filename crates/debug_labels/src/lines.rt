//! A tidy line with numbers in place of words that name places, or SWIs of loaded modules.

ghost use Rattle.std.specs.Prelude.{◌≡◌, ◌≤◌, ◌++◌, IfOk, IfSome, OnOk, option_map};
ghost use Rattle.std.specs.List.{join_with_byte};
ghost use Rattle.debugger.specs.AddressMapMemory.{bytes_of};
ghost use Rattle.command_shell_lines.specs.Requests.{words};
ghost use Rattle.debug_labels.specs.Lines.{has_places_behind, is_place_word, is_text_check, before_swi, kept_by_size, kept_untraced, kept_words, looks_back, unnumbered_word};

use crate::module_swis::swi_of_modules;
use crate::words::PlaceNames;
use assembler_text::naming::words::{after_word, is_name, word};
use command_shell_lines::debug_words::text_behind;
use command_shell_lines::number_of;
use debugger::AddressMap;
use profile::HexText;
use profile::text_lines::cut;
use std::alloc::{AllocError, Global};

impl PlaceNames<'_> {
    ghost use Rattle.debug_labels.specs.Lines.{line_with_numbers, line_with_swi, numbered_words, word_behind};

    /// What a tidy line means: the line with a number, as `&8004`, in place of each word that names
    /// a place, in the lines that have places: behind BREAK, UNBREAK, MEM, CODE, HEAP, POKE, STEP,
    /// WORDS, GOSUB, WATCH, UNWATCH, DUMP, FILL and FIND, and behind one word more after PUT, SET and
    /// EXPECT, but behind SET PSR and where EXPECT compares text, and after BACK UNTIL, LAST CHANGE,
    /// LAST CLAIM and LAST FREE, and behind STUB, one word and AT. Behind CALL, STUB and UNSTUB one word is
    /// the number of the SWI that a loaded module's table in memory names so. TRACE may stand before these.
    ///
    /// # Errors
    ///
    /// Memory ran out.
    pub fn line_with_numbers(
        &self,
        alloc: Global,
        memory: &AddressMap,
        line: &[u8],
    ) -> Result<Vec<u8>, AllocError>
        ensures { IfOk result (λ text. text.items
            ≡ line_with_numbers (record { names = self.now; bytes = bytes_of memory.now }) line.now) }
    {
        let named = self.line_with_swi(alloc, memory, line)?;
        match kept_words(named.as_slice()) {
            None => Ok(named),
            Some(kept) => self.numbered(alloc, named.as_slice(), kept),
        }
    }

    // A line with the number of the SWI that a loaded module names so.
    fn line_with_swi(
        &self,
        alloc: Global,
        memory: &AddressMap,
        line: &[u8],
    ) -> Result<Vec<u8>, AllocError>
        ensures { IfOk result (λ text. text.items
            ≡ line_with_swi (record { names = self.now; bytes = bytes_of memory.now }) line.now) }
    {
        let Some((front, named)) = before_swi(line) else {
            return Vec::from_slice(alloc, line);
        };
        match swi_of_modules(memory, self.modules, word(named)) {
            None => Vec::from_slice(alloc, line),
            Some(swi) => {
                let mut text = Vec::from_slice(alloc, front)?;
                text.extend_from_slice(HexText::number(swi).as_slice())?;
                text.extend_from_slice(after_word(named))?;
                Ok(text)
            }
        }
    }

    #[tactic(auto, using(crate::proofs::LineLemmas::numbered_on))]
    fn numbered(&self, alloc: Global, line: &[u8], kept: usize) -> Result<Vec<u8>, AllocError>
        ensures { IfOk result (λ text. text.items
            ≡ join_with_byte 32 (numbered_words self.now kept (words line.now))) }
    {
        let mut text = Vec::new(alloc);
        let mut left = kept;
        let (mut word, mut rest) = cut(line, b' ');
        while let Some(others) = rest {
            self.push_word(word, left, &mut text)?;
            text.push(b' ')?;
            left = left.saturating_sub(1);
            let (next, after) = cut(others, b' ');
            word = next;
            rest = after;
        }
        self.push_word(word, left, &mut text)?;
        Ok(text)
    }

    // Appends a word, or its number where it names a place and is none of those that stand as they
    // are.
    fn push_word(&self, word: &[u8], kept: usize, text: &mut Vec<u8>) -> Result<(), AllocError>
        ensures { OnOk result (text.new.items ≡ text.old.items ++ word_behind self.now kept word.now) }
    {
        if kept > 0 {
            return text.extend_from_slice(word);
        }
        match self.place(word) {
            None => text.extend_from_slice(word),
            Some(value) => {
                text.push(b'&')?;
                text.extend_from_slice(HexText::number(value).as_slice())
            }
        }
    }
}

// What stands before the name of a SWI, with `&`, and the name with what stands behind it.
fn before_swi(line: &[u8]) -> Option<(&'static [u8], &[u8])>
    ensures { option_map (λ parts. (parts.0.now, parts.1.now)) result ≡ before_swi line.now }
{
    if let Some(named) = text_behind(b"CALL ", line) {
        Some((b"CALL &", named))
    } else if let Some(named) = text_behind(b"TRACE CALL ", line) {
        Some((b"TRACE CALL &", named))
    } else if let Some(named) = text_behind(b"STUB ", line) {
        Some((b"STUB &", named))
    } else if let Some(named) = text_behind(b"UNSTUB ", line) {
        Some((b"UNSTUB &", named))
    } else {
        None
    }
}

/// Of a line with numbers in place of words that name places, the first word that is no number where
/// a number or a place may stand. BYTES stands before numbers.
pub(crate) fn unnumbered_word(line: &[u8]) -> Option<&[u8]>
    ensures { option_map (λ word. word.now) result ≡ unnumbered_word (words line.now) }
{
    let mut left = kept_words(line)?;
    let mut rest = Some(line);
    while let Some(text) = rest {
        let (word, others) = cut(text, b' ');
        let stands = number_of(word).is_some() || is_name(word, b"BYTES");
        if left == 0 && !stands {
            return Some(word);
        }
        left = left.saturating_sub(1);
        rest = others;
    }
    None
}

// How many words of a line stand as they are before those that may name places, if any may.
fn kept_words(line: &[u8]) -> Option<usize>
    ensures { result ≡ kept_words (words line.now) }
{
    let (word, rest) = cut(line, b' ');
    if is_name(word, b"TRACE") {
        Some(kept_untraced(rest?)? + 1)
    } else {
        kept_untraced(line)
    }
}

// The same of a line before which no TRACE stands.
fn kept_untraced(line: &[u8]) -> Option<usize>
    ensures kept { result ≡ kept_untraced (words line.now) }
    ensures few { IfSome result (λ n. n ≤ 3) }
{
    let (word, rest) = cut(line, b' ');
    let (second, others) = cut(rest?, b' ');
    if is_place_word(word) {
        Some(1)
    } else if has_places_behind(word, second) {
        Some(2)
    } else if looks_back(word, second) {
        match others {
            Some(others) => Some(kept_by_size(others)),
            None => Some(2),
        }
    } else if is_name(word, b"STUB") {
        let (third, _) = cut(others?, b' ');
        if is_name(third, b"AT") { Some(3) } else { None }
    } else {
        None
    }
}

// How many words stand as they are where places in the past are looked for: before the place may stand
// its size.
fn kept_by_size(line: &[u8]) -> usize
    ensures kept { result ≡ kept_by_size (words line.now) }
    ensures few { result ≤ 3 }
{
    let (third, _) = cut(line, b' ');
    if is_name(third, b"WORD") || is_name(third, b"BYTE") {
        3
    } else {
        2
    }
}

// Whether lines of these two words have places behind them.
fn has_places_behind(word: &[u8], second: &[u8]) -> bool
    ensures { result ≡ has_places_behind word.now second.now }
{
    if is_name(word, b"SET") {
        !is_name(second, b"PSR")
    } else if is_name(word, b"EXPECT") {
        !is_text_check(second)
    } else {
        is_name(word, b"PUT")
    }
}

// Whether lines of these two words look for a place in the past.
fn looks_back(word: &[u8], second: &[u8]) -> bool
    ensures { result ≡ looks_back word.now second.now }
{
    if is_name(word, b"BACK") {
        is_name(second, b"UNTIL")
    } else {
        is_name(word, b"LAST")
            && (is_name(second, b"CHANGE") || is_name(second, b"CLAIM") || is_name(second, b"FREE"))
    }
}

fn is_place_word(word: &[u8]) -> bool
    ensures { result ≡ is_place_word word.now }
{
    is_name(word, b"BREAK")
        || is_name(word, b"UNBREAK")
        || is_name(word, b"MEM")
        || is_name(word, b"CODE")
        || is_name(word, b"HEAP")
        || is_name(word, b"POKE")
        || is_name(word, b"STEP")
        || is_name(word, b"WORDS")
        || is_name(word, b"GOSUB")
        || is_name(word, b"WATCH")
        || is_name(word, b"UNWATCH")
        || is_name(word, b"DUMP")
        || is_name(word, b"FILL")
        || is_name(word, b"FIND")
}

fn is_text_check(word: &[u8]) -> bool
    ensures { result ≡ is_text_check word.now }
{
    is_name(word, b"FLAGS")
        || is_name(word, b"ANSWER")
        || is_name(word, b"LINE")
        || is_name(word, b"ERROR")
        || is_name(word, b"OUTPUT")
}
