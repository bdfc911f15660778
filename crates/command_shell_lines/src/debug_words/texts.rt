//! Parts of a line: what follows an opening, a text between quotes, the value of a byte.

ghost use Rattle.std.specs.Prelude.{◌≡◌, ◌<◌, ◌==◌, option_map, IfSome};
ghost use Rattle.std.specs.List.{position};
ghost use Rattle.command_shell_lines.specs.debug_words.Texts.{before_quote, between_quotes, byte_value, from_quote, text_behind};

use crate::number_of;
use crate::requests::has_letters;

/// What follows an opening, if a byte does; the opening's letters may be in either case.
pub fn text_behind<'a>(opening: &[u8], line: &'a [u8]) -> Option<&'a [u8]>
    ensures { option_map (λ text. text.now) result ≡ text_behind opening.now line.now }
{
    if line.len() > opening.len() && has_letters(&line[..opening.len()], opening) {
        Some(&line[opening.len()..])
    } else {
        None
    }
}

/// What stands between the double quotes that a text begins and ends with.
pub fn between_quotes(text: &[u8]) -> Option<&[u8]>
    ensures { option_map (λ raw. raw.now) result ≡ between_quotes text.now }
{
    match text {
        [b'"', raw @ .., b'"'] => Some(raw),
        _ => None,
    }
}

/// The value of a byte.
pub fn byte_value(word: &[u8]) -> Option<u32>
    ensures value { result ≡ byte_value word.now }
    ensures below { IfSome result (λ value. value < 256) }
{
    let value = number_of(word)?;
    if value < 256 { Some(value) } else { None }
}

/// What stands before the first double quote of a line, and the rest from it on.
pub fn cut_at_quote(line: &[u8]) -> (&[u8], &[u8])
    ensures front { result.0.now ≡ before_quote line.now }
    ensures text { result.1.now ≡ from_quote line.now }
{
    match quote_in(line) {
        Some(place) => (&line[..place], &line[place..]),
        None => (line, &[]),
    }
}

fn quote_in(line: &[u8]) -> Option<usize>
    ensures { result ≡ position (λ b. b == 34) line.now }
{
    line.iter().position(|byte| *byte == b'"')
}
