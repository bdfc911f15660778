//! The directives: DCD, DCB, SPACE and ALIGN, and the number after SPACE.

ghost use Rattle.std.specs.Prelude.{◌≡◌, ◌≤◌, IfSome, option_map};
ghost use Rattle.assembler.specs.Directives.{directive_named, size, spare_size_after, spare_size_of, size_with_digit};

use assembler_reading::{Read, after_word, byte, is_name, word};
use profile::memory_map::MOST_BYTES;

/// What the items of a list are.
#[derive(Clone, Copy)]
pub enum Data {
    /// Those of DCD.
    Words,
    /// Those of DCB.
    Bytes,
}

/// What a line that is no instruction asks for.
#[derive(Clone, Copy)]
pub enum Directive {
    /// The items of a list, one after another.
    Listed(Data),
    /// So many zero bytes.
    Space,
    /// Zero bytes up to the next multiple of 4.
    Align,
}

/// The directive of that name, in letters of either case.
pub fn directive_named(name: &[u8]) -> Option<Directive>
    ensures { result ≡ directive_named name.now }
{
    if is_name(name, b"DCD") {
        Some(Directive::Listed(Data::Words))
    } else if is_name(name, b"DCB") {
        Some(Directive::Listed(Data::Bytes))
    } else if is_name(name, b"SPACE") {
        Some(Directive::Space)
    } else if is_name(name, b"ALIGN") {
        Some(Directive::Align)
    } else {
        None
    }
}

/// The number after SPACE, in decimal or after `&` in hexadecimal, and what follows it; 1,048,577
/// stands for all greater ones.
pub(crate) fn size(text: &[u8]) -> Read<'_, usize>
    ensures read { option_map (λ r. (r.0, r.1.now)) result ≡ size text.now }
    ensures below { IfSome result (λ r. r.0 ≤ 1048577) }
{
    match byte(b'&', text) {
        Some(after) => size_after(16, after),
        None => size_after(10, text),
    }
}

fn size_after(radix: u32, text: &[u8]) -> Read<'_, usize>
    requires low { 2 ≤ radix }
    requires high { radix ≤ 36 }
    ensures read { option_map (λ r. (r.0, r.1.now)) result ≡ spare_size_after radix text.now }
    ensures below { IfSome result (λ r. r.0 ≤ 1048577) }
{
    Some((size_of(radix, word(text))?, after_word(text)))
}

fn size_of(radix: u32, digits: &[u8]) -> Option<usize>
    requires low { 2 ≤ radix }
    requires high { radix ≤ 36 }
    ensures read { result ≡ spare_size_of radix digits.now }
    ensures below { IfSome result (λ size. size ≤ 1048577) }
{
    if digits.is_empty() {
        return None;
    }
    let mut size = 0;
    for digit in digits {
        size = with_digit(size, *digit, radix)?;
    }
    Some(size)
}

// One more digit after a size.
fn with_digit(size: usize, digit: u8, radix: u32) -> Option<usize>
    requires low { 2 ≤ radix }
    requires high { radix ≤ 36 }
    requires size { size ≤ 1048577 }
    ensures read { result ≡ size_with_digit radix size digit }
    ensures below { IfSome result (λ size. size ≤ 1048577) }
{
    let digit = (digit as char).to_digit(radix)?;
    Some((size * radix as usize + digit as usize).min(MOST_BYTES + 1))
}
