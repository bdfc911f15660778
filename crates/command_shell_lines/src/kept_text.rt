//! Text of a line that is kept beyond it.

ghost use Rattle.std.specs.Prelude.{◌≡◌, IfOk};

use std::alloc::{AllocError, Global};
use std::marker::Model;

/// A text that a line had, or bytes that it wrote.
#[derive(Drop)]
pub struct KeptText {
    bytes: Vec<u8>,
}

impl Model for KeptText {
    ghost use Rattle.std.specs.Prelude.{ℕ, List};

    ghost Value = { List ℕ };

    ghost view = { λ t. t.bytes.items };
}

impl KeptText {
    /// The same text, in memory of its own.
    ///
    /// # Errors
    ///
    /// Memory ran out.
    pub fn of(alloc: Global, text: &[u8]) -> Result<KeptText, AllocError>
        ensures { IfOk result (λ kept. kept ≡ text.now) }
    {
        let bytes = Vec::from_slice(alloc, text)?;
        Ok(KeptText { bytes })
    }

    /// The text.
    pub fn bytes(&self) -> &[u8]
        ensures { result.now ≡ self.now }
    {
        self.bytes.as_slice()
    }
}
