//! The names of store calls, for SWI.

ghost use Rattle.std.specs.Prelude.{◌≡◌};
ghost use Rattle.assembler_text.specs.naming.SwiNames.{call_named, names_call, swi_named, x_call_named};

use arm_decode::SwiName;

static CALL_NUMBERS: [u32; 19] = [
    0x0, 0x1, 0x2, 0x3, 0x11, 0x16, 0x1D, 0x1E, 0x2A, 0x2B, 0x5C, 0x66, 0x100, 0xC0000, 0xC0001,
    0xC0002, 0xC0003, 0xC0004, 0xC0005,
];

/// The number of a store call by its name, which with X before it has bit 17. Capitals and small
/// letters differ.
pub fn swi_named(name: &[u8]) -> Option<u32>
    ensures { result ≡ swi_named name.now }
{
    call_named(name).or(x_call_named(name))
}

fn x_call_named(name: &[u8]) -> Option<u32>
    ensures { result ≡ x_call_named name.now }
{
    match name {
        [b'X', name @ ..] => call_named(name).map(|number| number | 0x2_0000),
        _ => None,
    }
}

fn call_named(name: &[u8]) -> Option<u32>
    ensures { result ≡ call_named name.now }
{
    CALL_NUMBERS
        .iter()
        .copied()
        .find(|number| names_call(name, *number))
}

fn names_call(name: &[u8], number: u32) -> bool
    ensures { result ≡ names_call name.now number }
{
    match SwiName::of(number) {
        Some(call) => name == call.name().as_bytes(),
        None => false,
    }
}
