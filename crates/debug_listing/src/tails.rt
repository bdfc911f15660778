//! The words of a command's tail.

ghost use Rattle.std.specs.Prelude.{◌≡◌, ◌≤◌, length, false};
ghost use Rattle.debug_listing.specs.Tails.{words_begun, tail_words, parts_words, quotes_behind};

/// How many words a tail has; between double quotes a space parts no words.
#[tactic(auto, using(crate::proofs::TextLemmas::word_steps))]
pub fn word_count(tail: &[u8]) -> u32
    requires { length tail.now ≤ 255 }
    ensures { result ≡ tail_words false false tail.now }
{
    let mut count = 0;
    let mut in_word = false;
    let mut in_quotes = false;
    for byte in tail {
        count += words_begun(in_word, in_quotes, *byte);
        in_word = !parts_words(in_quotes, *byte);
        in_quotes = quotes_behind(in_quotes, *byte);
    }
    count
}

// 1 where a word begins at a byte.
fn words_begun(in_word: bool, in_quotes: bool, byte: u8) -> u32
    ensures { result ≡ words_begun in_word in_quotes byte }
{
    if in_word || parts_words(in_quotes, byte) {
        0
    } else {
        1
    }
}

fn parts_words(in_quotes: bool, byte: u8) -> bool
    ensures { result ≡ parts_words in_quotes byte }
{
    byte == b' ' && !in_quotes
}

// Whether double quotes are open behind a byte.
fn quotes_behind(in_quotes: bool, byte: u8) -> bool
    ensures { result ≡ quotes_behind in_quotes byte }
{
    if byte == b'"' { !in_quotes } else { in_quotes }
}
