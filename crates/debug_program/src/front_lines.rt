//! The first lines of a text as they stand there, with their ends.

ghost use Rattle.std.specs.Prelude.{◌≡◌, ◌++◌, ◌⊎◌, [], take, drop};
ghost use Rattle.std.specs.Str.Lines.{lines};
ghost use Rattle.debug_program.specs.FrontLines.{EndsItsLines};

use profile::text_lines::cut_line;

/// The first so many lines of a text, with their ends, and what follows them.
pub fn cut_lines(text: &[u8], count: usize) -> (&[u8], &[u8])
    ensures whole { result.0.now ++ result.1.now ≡ text.now }
    ensures first { lines result.0.now ≡ take count (lines text.now) }
    ensures rest { lines result.1.now ≡ drop count (lines text.now) }
    ensures ended { (result.1.now ≡ []) ⊎ EndsItsLines result.0.now }
{
    let mut rest = text;
    let mut left = count;
    while left > 0 {
        match cut_line(rest) {
            Some((_, after)) => rest = after,
            None => return (text, &[]),
        }
        left -= 1;
    }
    text.split_at(text.len() - rest.len())
}
