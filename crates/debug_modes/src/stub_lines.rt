//! The stub that a line STUB asks for.

ghost use Rattle.std.specs.Prelude.{◌≡◌};
ghost use Rattle.debug_modes.specs.Changes.{stub_number, with_stub_number};

use command_shell::{Stub, without_x_bit};

/// The number of a SWI that a line shows as CALL takes it, without its X bit.
pub(crate) fn stub_number(number: u32) -> u32
    ensures { result ≡ stub_number number }
{
    without_x_bit(number % (1 << 24))
}

/// The stub with its number so.
pub(crate) fn with_stub_number(mut stub: Stub) -> Stub
    ensures { result ≡ with_stub_number stub }
{
    stub.number = stub_number(stub.number);
    stub
}
