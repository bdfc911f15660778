//! Strings of a name and a text (RISC OS 3 Programmer's Reference Manual, "OS_Module", reasons 0,
//! 1, 3 and 14).

ghost use Rattle.std.specs.Prelude.{◌≡◌, ◌≤◌, length, option_map, IfSome};
ghost use Rattle.std.specs.List.{position};
ghost use Rattle.swi_dispatch_answers.specs.Words.{host_string, is_control, is_space, is_byte_of_word, name_part, text_part, up_to_control, without_spaces};

use crate::strings::MAX_TEXT;

/// The name: what stands before the first space.
pub fn name_part(words: &[u8]) -> &[u8]
    ensures { result.now ≡ name_part words.now }
{
    match place_of_space(words) {
        Some(place) => &words[..place],
        None => words,
    }
}

/// The text: what follows all the spaces after the name.
pub fn text_part(words: &[u8]) -> &[u8]
    ensures value { result.now ≡ text_part words.now }
    ensures short { length result.now ≤ length words.now }
{
    match place_of_space(words) {
        Some(place) => without_spaces(&words[place..]),
        None => &[],
    }
}

fn without_spaces(words: &[u8]) -> &[u8]
    ensures value { result.now ≡ without_spaces words.now }
    ensures short { length result.now ≤ length words.now }
{
    match place_of_word(words) {
        Some(place) => &words[place..],
        None => &[],
    }
}

fn place_of_space(words: &[u8]) -> Option<usize>
    ensures { result ≡ position is_space words.now }
{
    words.iter().position(|byte| is_space(*byte))
}

fn place_of_word(words: &[u8]) -> Option<usize>
    ensures { result ≡ position is_byte_of_word words.now }
{
    words.iter().position(|byte| is_word(*byte))
}

fn is_space(byte: u8) -> bool
    ensures { result ≡ is_space byte }
{
    byte == b' '
}

fn is_word(byte: u8) -> bool
    ensures { result ≡ is_byte_of_word byte }
{
    byte != b' '
}

/// A string that a host gives: it ends before its first control byte. There is none where that is
/// longer than 255 bytes.
pub fn host_string(text: &[u8]) -> Option<&[u8]>
    ensures value { option_map (λ s. s.now) result ≡ host_string text.now }
    ensures short { IfSome result (λ s. length s.now ≤ 255) }
{
    let words = up_to_control(text);
    if words.len() <= MAX_TEXT {
        Some(words)
    } else {
        None
    }
}

fn up_to_control(text: &[u8]) -> &[u8]
    ensures { result.now ≡ up_to_control text.now }
{
    match place_of_control(text) {
        Some(place) => &text[..place],
        None => text,
    }
}

fn place_of_control(text: &[u8]) -> Option<usize>
    ensures { result ≡ position is_control text.now }
{
    text.iter().position(|byte| is_control(*byte))
}

fn is_control(byte: u8) -> bool
    ensures { result ≡ is_control byte }
{
    byte < 32
}
