//! The pieces of a line. A reader takes a text from the front, and answers what it read and what
//! follows, or `None` where the text isn't what it reads.

ghost use Rattle.std.specs.Prelude.{◌≡◌, ◌≤◌, ◌==◌, length, option_map};
ghost use Rattle.std.specs.List.{prefix_len};
ghost use Rattle.assembler_text.specs.naming.Words.{after_mark, after_spaces, after_word, byte, comma, is_end_of_line, is_marked, is_same_name, is_space, is_word_byte, spaces, word};

/// What was read, and what follows it.
pub type Read<'t, A> = Option<(A, &'t [u8])>;

/// The longest run of letters, digits and `_` at the front, which may be none.
pub fn word(text: &[u8]) -> &[u8]
    ensures { result.now ≡ word text.now }
{
    &text[..word_len(text)]
}

/// What follows that word.
pub fn after_word(text: &[u8]) -> &[u8]
    ensures { result.now ≡ after_word text.now }
{
    &text[word_len(text)..]
}

/// What follows the spaces at the front, of which there may be none.
pub fn after_spaces(text: &[u8]) -> &[u8]
    ensures { result.now ≡ after_spaces text.now }
{
    &text[space_len(text)..]
}

/// What follows this byte.
pub fn byte(c: u8, text: &[u8]) -> Option<&[u8]>
    ensures { option_map (λ rest. rest.now) result ≡ byte c text.now }
{
    let (first, rest) = text.split_first()?;
    if *first == c { Some(rest) } else { None }
}

/// Whether this byte stands here, and what follows it, or where it would stand.
pub fn mark(c: u8, text: &[u8]) -> (bool, &[u8])
    ensures is_there { result.0 ≡ is_marked c text.now }
    ensures rest { result.1.now ≡ after_mark c text.now }
{
    match byte(c, text) {
        Some(rest) => (true, rest),
        None => (false, text),
    }
}

/// What follows a space and any more spaces.
pub fn spaces(text: &[u8]) -> Option<&[u8]>
    ensures { option_map (λ rest. rest.now) result ≡ spaces text.now }
{
    Some(after_spaces(byte(b' ', text)?))
}

/// What follows a comma with any number of spaces on both sides.
pub fn comma(text: &[u8]) -> Option<&[u8]>
    ensures { option_map (λ rest. rest.now) result ≡ comma text.now }
{
    Some(after_spaces(byte(b',', after_spaces(text))?))
}

/// Whether nothing is left but spaces and a comment, which begins with `;`.
pub fn is_end(text: &[u8]) -> bool
    ensures { result ≡ is_end_of_line text.now }
{
    match after_spaces(text) {
        [] => true,
        [first, ..] => *first == b';',
    }
}

/// Whether a word is this name, in letters of either case.
pub fn is_name(text: &[u8], name: &[u8]) -> bool
    ensures { result ≡ is_same_name text.now name.now }
{
    text.eq_ignore_ascii_case(name)
}

fn word_len(text: &[u8]) -> usize
    ensures length { result ≡ prefix_len is_word_byte text.now }
    ensures within { result ≤ length text.now }
{
    text.iter().take_while(|byte| is_word_byte(**byte)).count()
}

fn space_len(text: &[u8]) -> usize
    ensures length { result ≡ prefix_len is_space text.now }
    ensures within { result ≤ length text.now }
{
    text.iter().take_while(|byte| is_space(**byte)).count()
}

fn is_word_byte(c: u8) -> bool
    ensures { result ≡ is_word_byte c }
{
    c.is_ascii_alphanumeric() || c == b'_'
}

fn is_space(c: u8) -> bool
    ensures { result ≡ is_space c }
{
    c == b' '
}
