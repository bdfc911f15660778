//! Numbers that words of a line stand for beside those of a script: `-1`, and a SWI's by its name.

ghost use Rattle.std.specs.Prelude.{◌≡◌};
ghost use Rattle.command_shell_lines.specs.debug_words.Values.{swi_shown, value_shown};

use crate::number_of;
use assembler_text::naming::swi_named;

/// The value that a word stands for: a number, or one with `-` before it, modulo 2^32.
pub fn value_shown(word: &[u8]) -> Option<u32>
    ensures { result ≡ value_shown word.now }
{
    match word {
        [b'-', digits @ ..] => Some(0u32.wrapping_sub(number_of(digits)?)),
        _ => number_of(word),
    }
}

/// The SWI that a word stands for: its number, or the name of a store call.
pub fn swi_shown(word: &[u8]) -> Option<u32>
    ensures { result ≡ swi_shown word.now }
{
    number_of(word).or(swi_named(word))
}
