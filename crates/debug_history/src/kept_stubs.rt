//! The stubs with which steps are taken again.

ghost use Rattle.std.specs.Prelude.{◌≡◌, [], IfOk, MatchOption};

use debug_tables::Stubs;
use std::alloc::{AllocError, Global};
use std::marker::Model;

/// The stubs with which steps were taken.
#[derive(Drop)]
pub struct KeptStubs {
    // None are kept as nothing.
    stubs: Option<Box<Stubs>>,
}

impl Model for KeptStubs {
    ghost use Rattle.std.specs.Prelude.{List};
    ghost use Rattle.command_shell_lines.specs.declared.debug_words.stubs.Stub.{Stub};
    ghost use Rattle.debug_history.specs.KeptStubs.{boxed_stubs};

    ghost Value = { List Stub };

    ghost view = { λ k. boxed_stubs k.stubs };
}

impl KeptStubs {
    /// No stub.
    pub fn none() -> KeptStubs
        ensures { result ≡ [] }
    {
        KeptStubs { stubs: None }
    }

    /// The same stubs, in memory of their own.
    ///
    /// # Errors
    ///
    /// Memory ran out.
    pub fn of(alloc: Global, stubs: &Stubs) -> Result<KeptStubs, AllocError>
        ensures { IfOk result (λ kept. kept ≡ stubs.now) }
    {
        if stubs.is_empty() {
            return Ok(KeptStubs::none());
        }
        let kept = Box::new(alloc, stubs.copied())?;
        Ok(KeptStubs { stubs: Some(kept) })
    }

    // The stubs, if there are any.
    pub(crate) fn table(&self) -> Option<&Stubs>
        ensures { MatchOption result (self.now ≡ []) (λ stubs. stubs.now ≡ self.now) }
    {
        self.stubs.as_deref()
    }
}
