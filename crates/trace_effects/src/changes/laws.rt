//! Laws of what two cores differ in, each the contract of a function that does nothing.

ghost use Rattle.trace_effects.specs.changes.Laws.{AreComplete, AreTrue, Replays};

/// Each register of each bank that differs is listed, with its old value and its new one.
pub fn changes_are_complete()
    ensures { AreComplete }
{}

/// Each that is listed has these values, and they differ.
pub fn changes_are_true()
    ensures { AreTrue }
{}

/// Whoever has a core, and what another differs from it in, has the other core: registers of all
/// banks, flags, mode and program counter.
pub fn changes_replay()
    ensures { Replays }
{}
