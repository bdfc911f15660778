//! Strings in a guest's memory.

ghost use Rattle.std.specs.Prelude.{◌≡◌, ◌<◌, ◌≤◌, ◌+◌, ◌^◌, length, IfSome};
ghost use Rattle.std.specs.Option.{option_map};
ghost use Rattle.address_map.specs.Memory.{bytes_of};
ghost use Rattle.swi_dispatch_answers.specs.Strings.{bytes_read, ends, next_word, string_in, text_at};

use address_map::{AddressMap, ErrorNumber};
use arm_core::{ADDRESS_LIMIT, Cpu};
use arrayvec::ArrayVec;

/// The most bytes of a string that is not printed.
pub const MAX_TEXT: usize = 255;

/// What ends a string in memory.
#[derive(Clone, Copy)]
pub enum TextEnd {
    /// A zero byte, as of strings to be printed.
    Zero,
    /// Any byte below 32, as of all other strings.
    Control,
}

impl TextEnd {
    /// Whether a byte ends such a string.
    pub fn ends(self, byte: u8) -> bool
        ensures { result ≡ ends self byte }
    {
        match self {
            TextEnd::Zero => byte == 0,
            TextEnd::Control => byte < 32,
        }
    }
}

/// The bytes from an address on up to the first that ends the string, or `None` where one of them
/// or the end is not mapped, or they are more than `MAX`.
pub fn text_at<const MAX: usize>(
    memory: &AddressMap,
    at: u32,
    end: TextEnd,
) -> Option<ArrayVec<u8, MAX>>
    requires { MAX ≤ 4096 }
    ensures text { option_map (λ text. text.items) result ≡ text_at (ends end) MAX (bytes_of memory.now) at }
    ensures end { IfSome result (λ text. at + length text.items < 2 ^ 27) }
{
    if at >= ADDRESS_LIMIT {
        return None;
    }
    let mut text = ArrayVec::new();
    for index in 0..MAX as u32 {
        let Ok(byte) = memory.load_byte(at + index) else {
            return None;
        };
        if end.ends(byte) {
            return Some(text);
        }
        text.push(byte);
    }
    let Ok(last) = memory.load_byte(at + MAX as u32) else {
        return None;
    };
    if !end.ends(last) {
        return None;
    }
    Some(text)
}

/// The first whole word at or after an address.
pub fn next_word(address: u32) -> u32
    requires { address < 2 ^ 31 }
    ensures { result ≡ next_word address }
{
    address.div_ceil(4) * 4
}

/// The string that a register points to, whole.
///
/// # Errors
///
/// `BadString` where one of its bytes or its end is not mapped, or it is longer than 255 bytes.
pub fn string_in(
    cpu: &Cpu,
    memory: &AddressMap,
    number: u32,
) -> Result<ArrayVec<u8, MAX_TEXT>, ErrorNumber>
    requires { number ≤ 14 }
    ensures { bytes_read result ≡ string_in (bytes_of memory.now) cpu.now number }
{
    let at = cpu.register(number);
    match text_at(memory, at, TextEnd::Control) {
        Some(text) => Ok(text),
        None => Err(ErrorNumber::BadString),
    }
}
