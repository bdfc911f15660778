//! A law of pages: those that are free and those that are mapped are all of a store's. It is the
//! contract of a function that does nothing.

ghost use Rattle.address_map.specs.Counts.{PagesAreCounted};

/// A store has the free pages, and those that are mapped at some address.
#[tactic(auto, using(crate::proofs::Counting::pages_counted))]
pub fn pages_are_counted()
    ensures { PagesAreCounted }
{}
