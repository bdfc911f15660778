//! A sink that takes all and keeps nothing, as for steps that are taken again.

ghost use Rattle.std.specs.Prelude.{None, false};

use profile::{Sink, WriteFault};

/// A sink for what was printed before, or isn't to be printed.
#[derive(Clone, Copy)]
pub struct Nowhere;

impl Sink for Nowhere {
    ghost contents = { λ _. None };

    ghost has_failed = { λ _. false };

    fn push(&mut self, bytes: &[u8]) -> Result<usize, WriteFault> {
        Ok(bytes.len())
    }
}
