//! Bytes spelt as pairs of hexadecimal digits.

ghost use Rattle.std.specs.Prelude.{◌≡◌, Some, None, IfOk, if◌then◌else◌};
ghost use Rattle.command_shell_lines.specs.HexPairs.{pair_value, with_spelled};

use std::alloc::AllocError;

/// Appends the bytes that a line of hexadecimal digits spells, and answers whether the line is
/// whole pairs; where it isn't, some bytes may have been appended.
pub fn append_spelled(bytes: &mut Vec<u8>, line: &[u8]) -> Result<bool, AllocError>
    ensures { IfOk result (λ is_spelled. with_spelled bytes.old.items line.now
        ≡ (if is_spelled then Some bytes.new.items else None)) }
{
    let mut rest = line;
    while let Some((first, others)) = rest.split_first() {
        rest = others;
        if *first != b' ' {
            let Some((second, others)) = rest.split_first() else {
                return Ok(false);
            };
            let Some(byte) = hex_pair(*first, *second) else {
                return Ok(false);
            };
            bytes.push(byte)?;
            rest = others;
        }
    }
    Ok(true)
}

/// The byte that two hexadecimal digits spell, in either case.
pub fn hex_pair(high: u8, low: u8) -> Option<u8>
    ensures { result ≡ pair_value high low }
{
    let high = (high as char).to_digit(16)?;
    let low = (low as char).to_digit(16)?;
    Some((16 * high + low) as u8)
}
