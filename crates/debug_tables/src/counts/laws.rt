//! The law of counts.

ghost use Rattle.debug_tables.specs.counts.Laws.{CountsAreExact};

/// From where steps are counted on, a word's count is the number of the steps that were taken at it.
pub fn counts_are_exact()
    ensures { CountsAreExact }
{}
