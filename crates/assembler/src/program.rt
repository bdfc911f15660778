//! The bytes of an assembled program.

ghost use Rattle.std.specs.Prelude.{◌≡◌};

use std::marker::Model;

/// The bytes of an assembled program; contracts see it as their list.
#[derive(Drop)]
pub struct Program {
    bytes: Vec<u8>,
}

impl Model for Program {
    ghost use Rattle.std.specs.Prelude.{ℕ, List};

    ghost Value = { List ℕ };

    ghost view = { λ p. p.bytes.items };
}

impl Program {
    pub(crate) fn new(bytes: Vec<u8>) -> Program
        ensures { result ≡ bytes.items }
    {
        Program { bytes }
    }

    /// The bytes, in order of their addresses.
    pub fn bytes(&self) -> &[u8]
        ensures { result.now ≡ self.now }
    {
        self.bytes.as_slice()
    }
}
