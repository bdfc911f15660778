//! The law of open frames. It is the contract of a function that does nothing.

ghost use Rattle.swi_dispatch_guest.specs.law_frames.Frames.{OnlyTheGateCloses};

/// A step that doesn't begin at the address that module code returns to leaves all frames of module
/// code open that were open before it; where it opens one, that is the innermost.
pub fn only_the_gate_closes_frames()
    ensures { OnlyTheGateCloses }
{}
