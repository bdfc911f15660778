//! A line's words, up to four of them.

ghost use Rattle.std.specs.Prelude.{◌≡◌, ◌∷◌};
ghost use Rattle.command_shell_lines.specs.Requests.{is_same_word, words};
ghost use Rattle.debug_lines.specs.FewWords.{AreWordsOf};

use profile::text_lines::cut;

/// The words of a line, where they are four at most.
#[derive(Clone, Copy)]
pub enum FewWords<'a> {
    /// One word.
    One(&'a [u8]),
    /// Two words.
    Two(&'a [u8], &'a [u8]),
    /// Three words.
    Three(&'a [u8], &'a [u8], &'a [u8]),
    /// Four words.
    Four(&'a [u8], &'a [u8], &'a [u8], &'a [u8]),
    /// Five words or more.
    More,
}

/// The words of a line.
pub(crate) fn few_words(line: &[u8]) -> FewWords<'_>
    ensures { AreWordsOf result (words line.now) }
{
    let (first, rest) = cut(line, b' ');
    match rest {
        Some(rest) => behind_one(first, rest),
        None => FewWords::One(first),
    }
}

fn behind_one<'a>(first: &'a [u8], line: &'a [u8]) -> FewWords<'a>
    ensures { AreWordsOf result (first.now ∷ words line.now) }
{
    let (second, rest) = cut(line, b' ');
    match rest {
        Some(rest) => behind_two(first, second, rest),
        None => FewWords::Two(first, second),
    }
}

fn behind_two<'a>(first: &'a [u8], second: &'a [u8], line: &'a [u8]) -> FewWords<'a>
    ensures { AreWordsOf result (first.now ∷ second.now ∷ words line.now) }
{
    let (third, rest) = cut(line, b' ');
    match rest {
        Some(rest) => behind_three(first, second, third, rest),
        None => FewWords::Three(first, second, third),
    }
}

fn behind_three<'a>(
    first: &'a [u8],
    second: &'a [u8],
    third: &'a [u8],
    line: &'a [u8],
) -> FewWords<'a>
    ensures { AreWordsOf result (first.now ∷ second.now ∷ third.now ∷ words line.now) }
{
    let (fourth, rest) = cut(line, b' ');
    match rest {
        Some(_) => FewWords::More,
        None => FewWords::Four(first, second, third, fourth),
    }
}

/// Whether a word has these letters, in either case.
pub(crate) fn has_letters(word: &[u8], letters: &[u8]) -> bool
    ensures { result ≡ is_same_word word.now letters.now }
{
    word.eq_ignore_ascii_case(letters)
}
