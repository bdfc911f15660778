//! A law of the module area: giving a block back undoes its claim. It is the contract of a function
//! that does nothing.

ghost use Rattle.rma.specs.Laws.{FreeUndoesClaim};

/// A block that is claimed without growth, and given back at once, leaves the module area as it
/// was.
#[tactic(auto, using(crate::proofs::Undoing::free_undoes_claim))]
pub fn free_undoes_claim()
    ensures { FreeUndoesClaim }
{}
